//! How events change a machine.

ghost use Rattle.std.specs.Prelude.{◌≡◌, ◌<◌, None, true, OnOk, OnErr, is_some, length};
ghost use Rattle.phys_groups.specs.Translation.{row_of, without};
ghost use Rattle.flat_state.specs.State.{with_thread};
ghost use Rattle.flat_state.specs.Declaration.{broken_rule, declared};
ghost use Rattle.flat_state.specs.Call.{is_completable};
ghost use Rattle.flat_thread.specs.Calls.{own_part};
ghost use Rattle.flat_rules.specs.Readings.{OfThread};

use crate::steps::Steps;
use cache_ident::{NoMemory, SpaceNo, ThreadNo, Vpn};
use flat_state::Decl;

/// Records that events can change.
///
/// Each call changes its own part of the flat state and leaves all else of that state. Only `carry_out` and `declare` may
/// want memory, and then nothing has changed.
pub trait Changes: Steps {
    /// Does what the call of a thread does to that thread alone.
    fn carry_out(&mut self, no: ThreadNo) -> Result<(), NoMemory>
        requires there { no.0 < length (Self.state self.old).threads }
        requires completable { OfThread (Self.state self.old) no.0 (λ t. is_completable t ≡ true) }
        ensures ok { OnOk result (OfThread (Self.state self.old) no.0 (λ t. Self.state self.new ≡ with_thread (Self.state self.old) no.0 (own_part t))) }
        ensures err { OnErr result (Self.state self.new ≡ Self.state self.old) };

    /// Makes a declaration that breaks no rule: the rules ask for a row, a thread or two rights.
    fn declare(&mut self, decl: &Decl) -> Result<(), NoMemory>
        requires { broken_rule (Self.state self.old) decl.now ≡ None }
        ensures ok { OnOk result (Self.state self.new ≡ declared (Self.state self.old) decl.now) }
        ensures err { OnErr result (Self.state self.new ≡ Self.state self.old) };

    /// Takes out the row of a page, and answers whether there was one.
    fn remove_row(&mut self, space: SpaceNo, vpn: Vpn) -> bool
        ensures found { result ≡ is_some (row_of (Self.state self.old).rows space vpn.0) }
        ensures rows { Self.state self.new ≡ record (Self.state self.old) { rows = without space vpn.0 (Self.state self.old).rows } };
}
