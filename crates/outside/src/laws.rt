//! Laws of worlds, each the contract of a function that does nothing.

ghost use Rattle.std.specs.Prelude.{◌≡◌, List, length, drop};
ghost use Rattle.outside.specs.declared.world.Reply.{Reply};
ghost use Rattle.outside.specs.Written.{Adds};
ghost use Rattle.outside.specs.World.{Heard, HearsAll, GetsReply, AreReplies, ProcessWorld, IsByProcess, NoneFails, written_to};

/// Calls are answered by the replies that were given, in order, each cut to its call; those that are
/// left are those after them.
pub fn replies_come_in_order()
    ensures { (replies left : List Reply) (calls : List Heard)
        → HearsAll GetsReply replies left calls
        → (left ≡ drop (length calls) replies) × AreReplies replies calls }
{}

/// A process writes what its program gave: where no call has failed, its stdout has gained the bytes
/// of the writes to descriptor 1, in order, and its stderr those of the writes to 2.
pub fn processes_write_in_order()
    ensures { (was now : ProcessWorld) (calls : List Heard)
        → HearsAll IsByProcess was now calls
        → NoneFails calls
        → Adds was.output now.output (written_to 1 calls)
        × Adds was.errors now.errors (written_to 2 calls) }
{}
