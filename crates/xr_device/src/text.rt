// A device text that is read line by line.
ghost use Rattle.std.specs.Prelude.{◌≡◌, ◌≤◌, ◌+◌, false, [], length, option_map};
ghost use Rattle.xr_io.specs.Outside.{left_of};
ghost use Rattle.xr_model.specs.device_text.DeviceText.{told_in};
ghost use Rattle.xr_device.specs.Answers.{IsTold, OnEvent};
ghost use Rattle.xr_device.specs.inside.Steps.{OnAnswer, OnStepFailed, Steps, CountsOn, CountsFaults, LosesNothing, MayReadMore, StaysOnTime, StaysInLines, KeepsLines};
ghost use Rattle.xr_device.specs.Texts.{told, reading_of, IsFrontLine, UsedLines, SameText};

use crate::Next;
use crate::held::{Held, ROOM};
use crate::lines::{Front, front_of};
use crate::words::{Said, said_by};
use std::marker::Model;
use xr_io::Source;
use xr_types::MOST_DEVICE;

/// What a step gives: nothing yet, or the answer.
#[derive(Clone, Copy)]
pub(crate) enum Step {
    GoesOn,
    Answer(Next),
}

/// A text: its source, the bytes that were read and not yet used, whether the source has ended, the number of the
/// next line, how many events were given, and how many bytes were used.
#[derive(Drop)]
pub(crate) struct Text<S: Source> {
    source: S,
    held: Held,
    ended: bool,
    number: u64,
    given: u64,
    used: usize,
}

impl<S: Source> Model for Text<S> {
    ghost use Rattle.xr_device.specs.Texts.{Reading, reading_of, IsInLimits};

    ghost Value = { Reading };

    ghost view = { λ t. reading_of t.number t.given t.used t.held t.ended (S.state t.source) };

    ghost invariant = { λ t. IsInLimits (reading_of t.number t.given t.used t.held t.ended (S.state t.source)) };
}

impl<S: Source> Text<S> {
    /// Nothing was read of the source yet, and no byte is held.
    pub(crate) fn new(source: S, held: Held) -> Text<S>
        requires { held ≡ [] }
        ensures new { result ≡ reading_of 1 0 0 [] false (S.state source) }
        ensures told { told result ≡ option_map told_in (left_of (S.state source)) }
        ensures lines { UsedLines result }
    {
        Text {
            source,
            held,
            ended: false,
            number: 1,
            given: 0,
            used: 0,
        }
    }

    /// Gives the source back.
    pub(crate) fn into_source(self) -> S
        ensures source { S.state result ≡ self.source }
        ensures few { self.used + length self.held ≤ MOST_DEVICE + 1 }
        ensures within { self.used + length self.held ≤ self.source.taken.count }
    {
        let Text { source, .. } = self;
        source
    }

    /// Uses the line that the held bytes begin with, or reads more where they decide none.
    pub(crate) fn step(&mut self) -> Step
        ensures told { Steps (told self.old) (told self.new) result }
        ensures sound { OnAnswer result (λ a. OnEvent a (λ e. IsTold e)) }
        ensures counts { CountsOn self.old self.new result }
        ensures faults { CountsFaults self.old.source.faults self.new.source.faults result }
        ensures whole { LosesNothing self.old self.new result }
        ensures same { SameText self.old self.new }
        ensures on_time { StaysOnTime self.old self.new result }
        ensures lines { KeepsLines self.old self.new result }
    {
        match front_of(self.held.as_slice(), self.used, self.ended) {
            Front::Line { bytes, size } => self.use_line(bytes, size),
            Front::Malformed => Step::Answer(Next::Garbled(self.number)),
            Front::End => Step::Answer(Next::End),
            Front::Open => self.read_more(),
        }
    }

    /// Uses the line that the held bytes begin with.
    fn use_line(&mut self, bytes: usize, size: usize) -> Step
        requires { IsFrontLine self.old.used self.old.held self.old.ended bytes size }
        ensures told { Steps (told self.old) (told self.new) result }
        ensures sound { OnAnswer result (λ a. OnEvent a (λ e. IsTold e)) }
        ensures counts { CountsOn self.old self.new result }
        ensures unfailed { OnStepFailed result ⊥ }
        ensures same { SameText self.old self.new }
        ensures source { self.new.source ≡ self.old.source }
        ensures ended { self.new.ended ≡ self.old.ended }
        ensures lines { StaysInLines self.old self.new result }
    {
        let said = said_by(&self.held.as_slice()[..bytes]);
        let number = self.number;
        self.held.skip(size);
        self.used += size;
        self.number = number + 1;
        match said {
            Said::Nothing => Step::GoesOn,
            Said::Event(event) => {
                self.given += 1;
                Step::Answer(Next::Event(event))
            }
            Said::Malformed => Step::Answer(Next::Garbled(number)),
        }
    }

    /// Reads more of the source, where the held bytes decide no line.
    fn read_more(&mut self) -> Step
        requires open { MayReadMore self.old }
        ensures told { Steps (told self.old) (told self.new) result }
        ensures failed { OnAnswer result (λ a. a ≡ Next.Failed) }
        ensures counts { CountsOn self.old self.new result }
        ensures faults { CountsFaults self.old.source.faults self.new.source.faults result }
        ensures whole { LosesNothing self.old self.new result }
        ensures same { SameText self.old self.new }
        ensures on_time { StaysOnTime self.old self.new result }
        ensures lines { KeepsLines self.old self.new result }
    {
        let held = self.held.as_slice().len();
        let most = (ROOM - held).min(MOST_DEVICE + 1 - self.used - held);
        match self.held.read_from(&mut self.source, most) {
            Ok(count) => {
                self.ended = count == 0;
                Step::GoesOn
            }
            Err(_) => Step::Answer(Next::Failed),
        }
    }
}
