// What an input asks for is one status. The law is a function that does nothing and ensures it.
ghost use Rattle.std.specs.Prelude.{◌≡◌, ℕ, List};
ghost use Rattle.pipe_cli.specs.Answer.{AsksFor};
ghost use Rattle.pipe_cli.specs.declared.status.Status.{Status};

/// No input asks for two statuses: since the rules leave each record one form, its events either all run within the limit, or
/// stop at one event with one count.
pub fn inputs_ask_for_one_status()
    ensures { (bytes : List ℕ) (one other : Status) → AsksFor bytes one → AsksFor bytes other → one ≡ other }
{}
