// The device that reads a text.
ghost use Rattle.std.specs.Prelude.{◌≡◌, ◌≤◌, ◌+◌, false, [], option_map, IfOk, IfErr};
ghost use Rattle.xr_types.specs.declared.limits.TheConstants.{MOST_DEVICE};
ghost use Rattle.xr_io.specs.Outside.{left_of};
ghost use Rattle.xr_model.specs.device_text.DeviceText.{told_in};
ghost use Rattle.xr_device.specs.Answers.{NextOf, OnFailed};
ghost use Rattle.xr_device.specs.Kinds.{taken_by, of_text};
ghost use Rattle.xr_device.specs.Texts.{KeepsTold, IsUndecided};

use crate::held::Held;
use crate::text::{Step, Text};
use crate::{Device, Next};
use std::alloc::Global;
use std::marker::Model;
use xr_io::Source;

/// A device that gives the events of a text, line by line. It reads at most 16,777,217 bytes and holds at most 4,096 of them, for
/// which memory is taken once. A step looks at no more than 256 held bytes, and a read moves no more than 255.
#[derive(Drop)]
pub struct LineDevice<S: Source> {
    text: Text<S>,
    over: bool,
}

impl<S: Source> Model for LineDevice<S> {
    ghost use Rattle.std.specs.Prelude.{◌≡◌, ◌≤◌, false};
    ghost use Rattle.xr_types.specs.declared.limits.TheConstants.{MOST_DEVICE};
    ghost use Rattle.xr_device.specs.Kinds.{TextReading};
    ghost use Rattle.xr_device.specs.Texts.{told, UsedLines};

    ghost Value = { TextReading };

    ghost view = { λ d. record {
      text = told d.text;
      over = d.over;
      given = d.text.given;
      held = d.text.held;
      used = d.text.used;
      ended = d.text.ended;
      source = d.text.source;
    } };

    ghost invariant = { λ d. (d.text.used ≤ MOST_DEVICE) × (d.over ≡ false → UsedLines d.text) };
}

impl<S: Source> LineDevice<S> {
    /// A device over a source, of which nothing was read yet. Takes all memory that the device ever takes; where memory is short
    /// the source is given back.
    pub fn start(alloc: Global, source: S) -> Result<LineDevice<S>, S>
        ensures remaining { IfOk result (λ device. (of_text device).remaining ≡ option_map told_in (left_of (S.state source))) }
        ensures start { IfOk result (λ device. device ≡ record {
          text = option_map told_in (left_of (S.state source));
          over = false;
          given = 0;
          held = [];
          used = 0;
          ended = false;
          source = S.state source;
        }) }
        ensures back { IfErr result (λ given. S.state given ≡ S.state source) }
    {
        let Ok(held) = Held::start(alloc) else {
            return Err(source);
        };
        Ok(LineDevice {
            text: Text::new(source, held),
            over: false,
        })
    }

    /// Gives the source back, of which no more than 16,777,217 bytes were taken.
    pub fn into_source(self) -> S
        ensures source { S.state result ≡ self.source }
        ensures few { taken_by self ≤ MOST_DEVICE + 1 }
        ensures within { taken_by self ≤ self.source.taken.count }
    {
        let LineDevice { text, .. } = self;
        text.into_source()
    }
}

impl<S: Source> Device for LineDevice<S> {
    ghost use Rattle.std.proofs.Common.{rules};

    ghost prospect = { of_text };

    /// Lines that came whole are told before a read that fails: the source is asked for more only where the held bytes
    /// decide no line.
    fn next(&mut self) -> Next
        ensures next { NextOf (of_text self.old) result (of_text self.new) }

        // Where a read failed, no line of the text was lost, and the held bytes decide none.
        ensures whole { OnFailed result (KeepsTold self.old.text self.new.text) }
        ensures undecided { OnFailed result (IsUndecided self.new.used self.new.held) }
    {
        if self.over {
            return Next::End;
        }
        loop {
            match self.text.step() {
                Step::GoesOn => {}
                Step::Answer(Next::Event(event)) => return Next::Event(event),
                Step::Answer(last) => {
                    self.over = true;
                    return last;
                }
            }
        }
    }

    ghost few = { Prim.search rules };
}
