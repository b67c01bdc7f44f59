ghost use Rattle.std.specs.Prelude.{◌≡◌};
ghost use Rattle.node_crowd.specs.Bringing.{IsReplied};

use node_core::Core;

/// What makes of a core's reply what is kept of it, outside of the node's lock: as a ring of keys, which signs it.
pub trait Finish<C: Core, T>: Sync {
    // It can finish what a core replies that stood so at first.
    ghost fits: { Self → C.State → Type 0 };

    // What it makes of a reply.
    ghost finished: { Self → C.Reply → T };

    /// Finishes a reply. It takes no memory.
    fn finish(&self, reply: C::Reply) -> T
        requires { IsReplied C.next C.legal (fits self.now) reply }
        ensures { result ≡ finished self.now reply };
}
