// The calls on paths (OpenXR 1.0 section 6.2).
ghost use Rattle.std.specs.Prelude.{◌≡◌, true, length};
ghost use Rattle.xr_types.specs.Code.{is_out_of_memory};
ghost use Rattle.xr_model.specs.machine.PartAnswers.{answer_by};
ghost use Rattle.xr_model.specs.machine.Paths.{atom_of, with_text, intern_refusals, may_want_memory};
ghost use Rattle.xr_model.specs.machine.Refusals.{first_of, unless};
ghost use Rattle.xr_types.specs.declared.calls.Call.TheVariants as ask;
ghost use Rattle.xr_model.specs.machine.CoreCalls.{Fits, asked};
ghost use Rattle.xr_core.specs.inside.Deciding.{Decides, DecidesWriting};
ghost use Rattle.xr_core.specs.inside.Groups.{IsPathCall};

use crate::halt::{Halt, giving, refused};
use crate::parts::Parts;
use crate::users::note_text;
use std::alloc::Global;
use xr_types::{Actor, Answer, Call, Code, Gives, Kind, Reply};

impl Parts {
    /// `out` is the buffer that `path_to_string` is lent; the other call leaves it.
    #[inline(never)]
    pub(crate) fn path_call(
        &mut self,
        alloc: Global,
        who: Actor,
        call: &Call<'_>,
        out: &mut [u8],
    ) -> Result<Reply, Halt>
        requires group { IsPathCall call.now }
        requires buffer { Fits (asked who call.now).lent (length out.old) }
        ensures { DecidesWriting who self.old call.now self.new result out.old out.new }
    {
        match call {
            Call::StringToPath { instance, text } => self.string_to_path(
                alloc,
                *instance,
                text.as_slice(),
            ),
            Call::PathToString {
                instance,
                path,
                capacity: _,
            } => self.path_to_string(*instance, *path, out),
            _ => unreachable!(),
        }
    }

    fn string_to_path(&mut self, alloc: Global, instance: u64, text: &[u8]) -> Result<Reply, Halt>
        ensures { Decides self.old (ask.StringToPath instance text.now) self.new result }
    {
        self.live(Kind::Instance, instance)?;
        let answer = self.intern(alloc, text);
        if answer.code != Code::Success {
            return refused(answer.code);
        }
        giving(Code::Success, Gives::Number(answer.number))
    }

    /// Asks for the atom of a text.
    fn intern(&mut self, alloc: Global, text: &[u8]) -> Answer
        ensures state { self.new ≡ record self.old { atoms = unless (first_of (intern_refusals self.old.atoms text.now (is_out_of_memory result.code))) self.old.atoms (with_text self.old.atoms text.now) } }
        ensures answer { result ≡ answer_by (first_of (intern_refusals self.old.atoms text.now (is_out_of_memory result.code))) (atom_of self.old.atoms text.now) }
        ensures memory { is_out_of_memory result.code ≡ true → may_want_memory self.old.atoms text.now ≡ true }
    {
        let answer = self.paths.intern(alloc, text);
        if answer.code == Code::Success {
            note_text(&mut self.users, text, answer.number);
        }
        answer
    }

    fn path_to_string(&mut self, instance: u64, path: u64, out: &mut [u8]) -> Result<Reply, Halt>
        ensures { (who : Actor) → DecidesWriting who self.old (ask.PathToString instance path (length out.old)) self.new result out.old out.new }
    {
        self.live(Kind::Instance, instance)?;
        let answer = self.paths.text_of(path, out);
        match answer.code {
            Code::Success | Code::SizeInsufficient => {}
            code => return refused(code),
        }
        giving(answer.code, Gives::Size(answer.number))
    }
}
