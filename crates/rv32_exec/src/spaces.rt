// Address spaces, as a step uses them.

ghost use Rattle.std.specs.Prelude.{◌≡◌, ◌%◌, List, IfSome, IsTrue, is_ok};
ghost use Rattle.std.specs.Result.{result_ok};
ghost use Rattle.rv32_isa.specs.Table.{IsValid, instruction_of};
ghost use Rattle.rv32_exec.specs.Pages.{Page, size_of, translates, fetched, loaded, stored, touched_at};

use crate::statuses::Access;
use rv32_isa::Instr;

/// How many bytes an access takes: 1, 2 or 4.
#[derive(Clone, Copy, Debug, PartialEq, Eq)]
pub enum Width {
    Byte,
    Half,
    Word,
}

impl Width {
    /// The number of bytes.
    pub fn size(self) -> u32
        ensures { result ≡ size_of self }
    {
        match self {
            Width::Byte => 1,
            Width::Half => 2,
            Width::Word => 4,
        }
    }
}

/// The space has no translation for an access.
#[derive(Clone, Copy, Debug, PartialEq, Eq)]
pub struct Hole;

/// Memory as a thread sees it: pages of 4,096 bytes, each with its flags and the marks of its use.
///
/// An access goes through the page of its address's number, if that page has the access's flag.
/// Two pages of one frame see each other's stores.
/// What else there is beside the pages, as the frames of other spaces, is `kept` by every access.
pub trait Space {
    ghost pages: { Self → List Page };

    ghost Kept: { Type 0 };

    ghost kept: { Self → Kept };

    /// The word at `va`, for execution. A hole where the fetch does not translate.
    fn fetch(&self, va: u32) -> Result<u32, Hole>
        requires { va % 4 ≡ 0 }
        ensures { result_ok result ≡ fetched (pages self.now) va };

    /// The instruction that a word fetched at `va` is, as `decode` answers it. A space may remember it by its address.
    fn instruction(&mut self, va: u32, word: u32) -> Option<Instr>
        ensures decoded { result ≡ instruction_of word }
        ensures valid { IfSome result IsValid }
        ensures pages { pages self.new ≡ pages self.old }
        ensures kept { kept self.new ≡ kept self.old };

    /// The number at `va`, little-endian. A hole where the load does not translate.
    fn load(&self, va: u32, width: Width) -> Result<u32, Hole>
        requires { va % size_of width ≡ 0 }
        ensures { result_ok result ≡ loaded (pages self.now) va width };

    /// Puts the low bytes of a number at `va`. A hole, and no change, where the store does not translate.
    fn store(&mut self, va: u32, width: Width, value: u32) -> Result<(), Hole>
        requires { va % size_of width ≡ 0 }
        ensures found { is_ok result ≡ translates (pages self.old) va Access.Write }
        ensures bytes { pages self.new ≡ stored (pages self.old) va width value }
        ensures kept { kept self.new ≡ kept self.old };

    /// Marks the page of an access as touched, and for a write also as written.
    fn touch(&mut self, va: u32, access: Access)
        requires { IsTrue (translates (pages self.old) va access) }
        ensures marks { pages self.new ≡ touched_at (pages self.old) va access }
        ensures kept { kept self.new ≡ kept self.old };
}
