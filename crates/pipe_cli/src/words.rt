// The words of the command line.
ghost use Rattle.std.specs.Prelude.{◌≡◌, ◌&&◌, bytes_eq, codes, map, string_bytes, if◌then◌else◌, IfNone, IfSome};
ghost use Rattle.pipe_cli.specs.Form.{IsReplayForm, IsSomeForm};

use pipe_base::List;

/// The program's words without its name.
pub type Words = List<String>;

/// What the words ask for.
#[derive(Clone, Copy, Debug, PartialEq, Eq)]
pub enum Form {
    /// `replay`: the logs of the run.
    Replay,
    /// `replay --trace`: the trace of the run, and then its logs.
    ReplayTrace,
}

/// The form that the words are, if any. Takes no memory.
pub fn form_of(words: &Words) -> Option<Form>
    ensures none { IfNone result (¬ IsSomeForm (map string_bytes words.now)) }
    ensures some { IfSome result (λ form. IsReplayForm form (map string_bytes words.now)) }
{
    match words.as_slice() {
        [verb] => alone(verb.as_str()),
        [verb, option] => with_option(verb.as_str(), option.as_str()),
        _ => None,
    }
}

// The form of a verb alone.
fn alone(verb: &str) -> Option<Form>
    ensures { result ≡ (if bytes_eq verb.now (codes "replay") then Some Form.Replay else None) }
{
    if verb == "replay" {
        Some(Form::Replay)
    } else {
        None
    }
}

// The form of a verb and an option.
fn with_option(verb: &str, option: &str) -> Option<Form>
    ensures { result ≡ (if bytes_eq verb.now (codes "replay") && bytes_eq option.now (codes "--trace")
        then Some Form.ReplayTrace else None) }
{
    if verb == "replay" && option == "--trace" {
        Some(Form::ReplayTrace)
    } else {
        None
    }
}
