// The held messages of one service.
ghost use Rattle.std.specs.Prelude.{◌≡◌, ◌++◌, ◌∷◌, [], ℕ, List, None, length, nat_lt, false, IfOk, OnOk, OnErr};
ghost use Rattle.pipe_base.specs.declared.control.Announced.{Announced as AAnnounced};
ghost use Rattle.pipe_base.specs.Failed.{is_void, past_known, time_of, without_void};
ghost use Rattle.pipe_base.specs.Fate.{fate_among, fate_of};
ghost use Rattle.pipe_base.specs.Messages.{IsInOrder, has_key, below_barrier, from_barrier, AreBelow};
ghost use Rattle.pipe_reorder.specs.Buffer.{Buffer, adopted, empty_buffer, buffer_with, buffer_without, passed_by, left_by, but_newest, has_tombstone, keys_from, let_out, with_buried, with_no_buried, with_recalled, with_unburied, message_key, with_failed, with_no_void, with_placed, AppendsSome};

use pipe_base::{
    Announced, Body, Entry, Fate, HostId, Key, LoggedList, Message, NoMemory, Noted, Service, Ts,
};
use std::alloc::Global;
use std::collections::{BTreeMap, BTreeSet};
use std::marker::Model;

/// The messages of a service that a host holds in the total order, the barrier that passed last, the failed hosts whose
/// messages are void from their times on, and a tombstone for each message that its sender took back and that the barrier has
/// not passed. Void messages and those with a tombstone are never logged.
#[derive(Clone, Debug, Drop)]
pub struct Reorder {
    service: Service,
    barrier: Ts,
    failed: Noted,
    tombstones: BTreeSet<Key>,
    newest: Option<Key>,
    held: BTreeMap<Key, Body>,
}

impl Model for Reorder {
    ghost use Rattle.pipe_base.specs.Messages.{IsInOrder};
    ghost use Rattle.pipe_reorder.specs.Buffer.{Buffer, buffer_of};

    ghost Value = { Buffer };

    ghost view = { λ r. buffer_of r.service r.barrier r.failed r.tombstones.keys r.newest r.held.entries };

    ghost invariant = { λ r. IsInOrder r.held.entries };
}

impl Reorder {
    /// A buffer that holds nothing, and knows of no failed host and of no message taken back. Takes no memory.
    pub fn new(alloc: Global, service: Service) -> Reorder
        ensures { result ≡ empty_buffer service }
    {
        Reorder {
            service,
            barrier: Ts(0),
            failed: Noted::new(alloc),
            tombstones: BTreeSet::new(alloc),
            newest: None,
            held: BTreeMap::new(alloc),
        }
    }

    /// How many messages are held. They are in the total order.
    pub fn len(&self) -> usize
        ensures count { result ≡ length self.now.messages }
        ensures order { IsInOrder self.now.messages }
    {
        self.held.len()
    }

    /// The barrier that passed last.
    pub fn barrier(&self) -> Ts
        ensures { result.0 ≡ self.now.barrier }
    {
        self.barrier
    }

    /// The failed hosts whose messages are void.
    pub fn failed(&self) -> &Noted
        ensures { result.now ≡ self.now.failed }
    {
        &self.failed
    }

    /// Whether a message with this key is held.
    pub fn holds(&self, key: Key) -> bool
        ensures { result ≡ has_key key self.now.messages }
    {
        self.held.contains_key(&key)
    }

    /// Holds a message, in the place of one with its key.
    pub fn hold(&mut self, key: Key, body: Body) -> Result<(), NoMemory>
        ensures ok { OnOk result (self.new ≡ buffer_with key body self.old) }
        ensures err { OnErr result (self.new ≡ self.old) }
    {
        self.held.insert(key, body)?;
        Ok(())
    }

    /// Holds the message with this key no more: the way back from a `hold` of a key that was not
    /// held. Takes no memory.
    pub fn unhold(&mut self, key: Key)
        ensures removes { self.new ≡ buffer_without key self.old }
        ensures undoes { (before : Buffer) (body : List ℕ) → has_key key before.messages ≡ false
            → self.old ≡ buffer_with key body before → self.new ≡ before }
    {
        let _ = self.held.remove(&key);
    }

    /// The host has failed: its messages from the time on are void, and held no more. The first time of a host stands.
    pub fn fail(&mut self, host: HostId, time: Ts) -> Result<(), NoMemory>
        ensures ok { OnOk result (self.new ≡ with_no_void (with_failed (record { host = host; time = time } ∷ []) self.old)) }
        ensures err { OnErr result (self.new ≡ self.old) }
    {
        self.failed.push(Announced { host, time })?;
        self.drop_void();
        Ok(())
    }

    /// Takes over the failed hosts of an announcement past the number of those known, and answers how many. What is void by
    /// them is held until `drop_void`.
    pub fn adopt(&mut self, list: &[Announced]) -> Result<usize, NoMemory>
        ensures ok { OnOk result (self.new ≡ adopted list.now self.old) }
        ensures count { IfOk result (λ count. count ≡ length (past_known self.old.failed list.now)) }
        ensures err { OnErr result (self.new ≡ self.old) }
    {
        Ok(usize::from(self.failed.adopt(list)?))
    }

    /// Knows of the last so many failed hosts no more: the way back from an `adopt` that answered this count. Takes no memory.
    pub fn unadopt(&mut self, count: usize)
        ensures { (before : Buffer) (failed : List AAnnounced) → count ≡ length failed
            → self.old ≡ with_failed failed before → self.new ≡ before }
    {
        let kept = usize::from(self.failed.count()).saturating_sub(count);
        self.failed.truncate(kept);
    }

    /// Holds the messages no more that are void. Takes no memory.
    pub fn drop_void(&mut self)
        ensures { self.new ≡ with_no_void self.old }
    {
        drop_void(&mut self.held, &self.failed);
    }

    /// Whether the key has a tombstone.
    pub fn is_recalled(&self, key: Key) -> bool
        ensures { result ≡ has_tombstone self.now.tombstones key }
    {
        has_tombstone(&self.tombstones, key)
    }

    /// The sender has taken the message with this key back: it is held no more, and its key has a tombstone, where the barrier
    /// has not passed it.
    pub fn recall(&mut self, key: Key) -> Result<(), NoMemory>
        ensures ok { OnOk result (self.new ≡ with_recalled key self.old) }
        ensures err { OnErr result (self.new ≡ self.old) }
    {
        self.bury(key)?;
        let _ = self.held.remove(&key);
        self.newest = None;
        Ok(())
    }

    /// Gives the key a tombstone, where it has none and the barrier has not passed it: the newest then. Otherwise none is the
    /// newest. The message is held until `drop_buried`.
    pub fn bury(&mut self, key: Key) -> Result<(), NoMemory>
        ensures ok { OnOk result (self.new ≡ with_buried key self.old) }
        ensures err { OnErr result (self.new ≡ self.old) }
    {
        if key.ts.0 < self.barrier.0 || self.is_recalled(key) {
            self.newest = None;
            return Ok(());
        }
        let _ = self.tombstones.insert(key)?;
        self.newest = Some(key);
        Ok(())
    }

    /// The tombstone that is the newest.
    pub fn newest(&self) -> Option<Key>
        ensures { result ≡ self.now.newest }
    {
        self.newest
    }

    /// From now on no tombstone is the newest.
    pub fn forget_newest(&mut self)
        ensures { self.new ≡ record self.old { newest = None } }
    {
        self.newest = None;
    }

    /// Takes the newest tombstone away: the way back from a `bury`, with the one that was the newest before. Takes no memory.
    pub fn unbury(&mut self, before: Option<Key>)
        ensures removes { self.new ≡ with_unburied before self.old }
        ensures undoes { (buffer : Buffer) (key : Key) → before ≡ buffer.newest → self.old ≡ with_buried key buffer
            → self.new ≡ buffer }
    {
        remove_newest(&mut self.tombstones, self.newest);
        self.newest = before;
    }

    /// Holds the message no more whose tombstone is the newest. Takes no memory.
    pub fn drop_buried(&mut self)
        ensures { self.new ≡ with_no_buried self.old }
    {
        if let Some(key) = self.newest {
            let _ = self.held.remove(&key);
            self.newest = None;
        }
    }

    /// What becomes of a message of this service with this key that comes now.
    pub fn fate(&self, key: Key) -> Fate
        ensures { result ≡ fate_of self.now.barrier (time_of key.src.0 self.now.failed) (has_tombstone self.now.tombstones key) self.now.messages key }
    {
        if key.ts.0 < self.barrier.0 {
            return Fate::Late {
                barrier: self.barrier,
            };
        }
        match self.failed.time_of(key.src) {
            Some(time) if time.0 <= key.ts.0 => Fate::Discarded { time },
            _ => self.fate_among(key),
        }
    }

    /// What becomes of a message with this key that is neither late nor void.
    fn fate_among(&self, key: Key) -> Fate
        ensures { result ≡ fate_among (has_tombstone self.now.tombstones key) self.now.messages key }
    {
        if self.is_recalled(key) {
            Fate::Recalled
        } else if self.holds(key) {
            Fate::Repeat
        } else {
            Fate::Held
        }
    }

    /// Gives a message of this service its fate, and holds it where that is `Held`.
    pub fn place(&mut self, message: Message) -> Result<Fate, NoMemory>
        ensures fate { IfOk result (λ fate. fate ≡ fate_of self.old.barrier (time_of message.src.0 self.old.failed)
            (has_tombstone self.old.tombstones (message_key message)) self.old.messages (message_key message)) }
        ensures held { IfOk result (λ fate. self.new ≡ with_placed fate (message_key message) message.body self.old) }
        ensures err { OnErr result (self.new ≡ self.old) }
    {
        let key = Key {
            ts: message.ts,
            src: message.src,
        };
        let fate = self.fate(key);
        if let Fate::Held = fate {
            self.hold(key, message.body)?;
        }
        Ok(fate)
    }

    /// Whether a held message is below the barrier. Where none is, the barrier lets nothing out.
    pub fn has_below(&self, barrier: Ts) -> bool
        ensures value { result ≡ nat_lt 0 (length (below_barrier barrier.0 self.now.messages)) }
        ensures none { result ≡ false → passed_by barrier.0 self.now ≡ [] }
    {
        has_below(&self.held, barrier)
    }

    /// Appends the held messages below the barrier that are not void and have no tombstone, in the total order. After `NoMemory`
    /// some first ones of them were appended.
    pub fn copy_passed(&self, barrier: Ts, out: &mut LoggedList) -> Result<(), NoMemory>
        ensures ok { OnOk result (out.new ≡ out.old ++ passed_by barrier.0 self.now) }
        ensures early { OnOk result (AreBelow barrier.0 out.old → AreBelow barrier.0 out.new) }
        ensures err { OnErr result (AppendsSome out.old (passed_by barrier.0 self.now) out.new) }
    {
        copy_below(
            &self.held,
            &self.failed,
            &self.tombstones,
            self.service,
            barrier,
            out,
        )
    }

    /// Holds the messages below the barrier no more, and keeps no tombstone below it. Takes no memory.
    pub fn drop_passed(&mut self, barrier: Ts)
        ensures { self.new ≡ left_by barrier.0 self.old }
    {
        drop_below(&mut self.held, barrier);
        drop_keys_below(&mut self.tombstones, barrier);
        self.barrier = barrier;
    }

    pub fn try_clone(&self) -> Result<Reorder, NoMemory>
        ensures { IfOk result (λ copy. copy ≡ self.now) }
    {
        Ok(self.clone()?)
    }

    /// Moves the messages below the barrier to the end of the log, but those that are void or have a tombstone: these go. After
    /// `NoMemory` all are still held, and copies of some first ones were appended.
    pub fn pass(&mut self, barrier: Ts, out: &mut LoggedList) -> Result<(), NoMemory>
        ensures logged { OnOk result (out.new ≡ out.old ++ passed_by barrier.0 self.old) }
        ensures left { OnOk result (self.new ≡ left_by barrier.0 self.old) }
        ensures err { OnErr result (self.new ≡ self.old) }
        ensures some { OnErr result (AppendsSome out.old (passed_by barrier.0 self.old) out.new) }
    {
        self.copy_passed(barrier, out)?;
        self.drop_passed(barrier);
        Ok(())
    }
}

fn has_below(held: &BTreeMap<Key, Body>, barrier: Ts) -> bool
    requires { IsInOrder held.now.entries }
    ensures { result ≡ nat_lt 0 (length (below_barrier barrier.0 held.now.entries)) }
{
    match held.first_key_value() {
        Some((key, _)) => key.ts.0 < barrier.0,
        None => false,
    }
}

fn copy_below(
    held: &BTreeMap<Key, Body>,
    failed: &Noted,
    tombstones: &BTreeSet<Key>,
    service: Service,
    barrier: Ts,
    out: &mut LoggedList,
) -> Result<(), NoMemory>
    ensures ok { OnOk result (out.new ≡ out.old ++ let_out service failed.now tombstones.now.keys barrier.0 held.now.entries) }
    ensures err { OnErr result (AppendsSome out.old (let_out service failed.now tombstones.now.keys barrier.0 held.now.entries) out.new) }
{
    'entries: for (key, body) in held {
        if key.ts.0 >= barrier.0 {
            break;
        }
        if is_void(failed, *key) || has_tombstone(tombstones, *key) {
            continue;
        }
        let body = body.try_clone()?;
        add(out, (service, Entry { key: *key, body }))?;
    }
    Ok(())
}

// Whether the key has a tombstone.
fn has_tombstone(tombstones: &BTreeSet<Key>, key: Key) -> bool
    ensures { result ≡ has_tombstone tombstones.now.keys key }
{
    tombstones.contains(&key)
}

// Whether the message with this key is void.
fn is_void(failed: &Noted, key: Key) -> bool
    ensures { result ≡ is_void failed.now key }
{
    match failed.time_of(key.src) {
        Some(time) => time.0 <= key.ts.0,
        None => false,
    }
}

// Appends an entry. Most logs of a step have one, so the first takes no room for more.
fn add(out: &mut LoggedList, entry: (Service, Entry)) -> Result<(), NoMemory>
    ensures ok { OnOk result (out.new ≡ out.old ++ entry ∷ []) }
    ensures err { OnErr result (out.new ≡ out.old) }
{
    if out.is_empty() {
        out.reserve(1)?;
    }
    out.push(entry)
}

fn drop_below(held: &mut BTreeMap<Key, Body>, barrier: Ts)
    requires { IsInOrder held.old.entries }
    ensures { held.new.entries ≡ from_barrier barrier.0 held.old.entries }
{
    'entries: while let Some((key, _)) = held.first_key_value() {
        if barrier.0 <= key.ts.0 {
            return;
        }
        let _ = held.pop_first();
    }
}

fn remove_newest(tombstones: &mut BTreeSet<Key>, newest: Option<Key>)
    ensures { tombstones.new.keys ≡ but_newest newest tombstones.old.keys }
{
    if let Some(key) = newest {
        let _ = tombstones.remove(&key);
    }
}

fn drop_keys_below(keys: &mut BTreeSet<Key>, barrier: Ts)
    ensures { keys.new.keys ≡ keys_from barrier.0 keys.old.keys }
{
    'keys: while let Some(key) = keys.first() {
        if barrier.0 <= key.ts.0 {
            return;
        }
        let _ = keys.pop_first();
    }
}

fn drop_void(held: &mut BTreeMap<Key, Body>, failed: &Noted)
    ensures { held.new.entries ≡ without_void failed.now held.old.entries }
{
    held.retain(|key, _| !is_void(failed, *key));
}
