// What every input has that is read. The law is a function that does nothing and ensures it.
ghost use Rattle.std.specs.Prelude.{ℕ, List, IfOk};
ghost use Rattle.pipe_text_input.specs.Content.{content_of};
ghost use Rattle.pipe_text_input.specs.Network.{HasNetwork};

/// Where the bytes tell a network and events, the network is one whose hosts reach each other and whose nodes have names, and
/// each event can happen in it.
pub fn inputs_have_networks()
    ensures { (bytes : List ℕ) → IfOk (content_of bytes) HasNetwork }
{}
