//! What stands in for a source.

ghost use Rattle.std.specs.Prelude.{◌≡◌, ◌≤◌, ◌∷◌, take, option_map};
ghost use Rattle.iface_roles.specs.Records.{ready_latency};
ghost use Rattle.stream_runs.specs.View.{EndView};
ghost use Rattle.scenario_tables.specs.Statements.{IsSourceScript};
ghost use Rattle.stand_ins.specs.StreamsSteps.{levels_of};
ghost use Rattle.stand_ins.specs.Sources.{keeping_at, is_due, may_send_now, is_taken, keeping_behind, beat_kept};

use crate::streams::steps::StepsLeft;
use iface_roles::StreamPort;
use scenario_tables::{SourceBeat, SourceStatement};
use std::marker::Model;

fn put_latest(lately: &mut [bool; 8], ready: bool)
    ensures { lately.new ≡ ready ∷ take 7 lately.old }
{
    lately.rotate_right(1);
    lately[0] = ready;
}

/// Stands in for a source: it sends the beats of its script, each as soon as it may, and rests in the gaps.
#[derive(Drop)]
pub struct SourceStandIn<'a> {
    latency: u8,
    allowance: u8,
    left: StepsLeft<'a>,
    /// How many beats it has sent since `ready` was last high, counted up to its allowance.
    sent: u8,
    /// Whether `ready` was high in some cycle that is at least the latency before the last one.
    came: bool,
    /// Whether `ready` was high in the eight cycles before, the latest first.
    lately: [bool; 8],
}

impl<'a> Model for SourceStandIn<'a> {
    ghost use Rattle.std.specs.Prelude.{◌≤◌};
    ghost use Rattle.stand_ins.specs.Sources.{Keeping};

    ghost Value = { Keeping };

    ghost view = { λ s. record {
      pace =
          record { latency = s.latency; allowance = s.allowance };
      left =
          s.left;
      sent = s.sent;
      came = s.came;
      lately = s.lately;
    } };

    ghost invariant = { λ s. s.latency ≤ 8 };
}

impl<'a> SourceStandIn<'a> {
    /// Stands at the first statement, before the first cycle. The ready latency is 8 at most.
    pub fn new(port: &StreamPort, script: &'a [SourceStatement]) -> SourceStandIn<'a>
        requires soon { ready_latency port.now ≤ 8 }
        requires fits { IsSourceScript port.now script.now }
        ensures { (view : EndView) → result ≡ keeping_at port.now script.now view 0 }
    {
        SourceStandIn {
            latency: port.ready_latency(),
            allowance: if port.ready { port.allowance } else { 0 },
            left: StepsLeft::new(script),
            sent: 0,
            came: false,
            lately: [false; 8],
        }
    }

    /// Whether a cycle is a ready cycle, where `ready` is so in it.
    fn is_due(&self, ready: bool) -> bool
        ensures { result ≡ is_due self.now ready }
    {
        match usize::from(self.latency) {
            0 => ready,
            ago => self.lately[ago - 1],
        }
    }

    /// Whether it may send a beat in this cycle, whatever `ready` is in it.
    fn may_send(&self) -> bool
        ensures { result ≡ may_send_now self.now }
    {
        if self.latency == 0 {
            true
        } else if self.latency < self.allowance {
            (self.came || self.is_due(false)) && self.sent < self.allowance
        } else {
            self.is_due(false)
        }
    }

    /// Whether a beat that stands in a cycle is taken, where `ready` is so in it.
    fn is_taken(&self, ready: bool) -> bool
        ensures { result ≡ is_taken self.now ready }
    {
        self.may_send() && (self.latency > 0 || ready)
    }

    /// The beat that it shows in this cycle. Where there is none, `valid` is low and all else is 0.
    pub fn shown(&self) -> Option<SourceBeat>
        ensures { option_map levels_of result ≡ beat_kept self.now }
    {
        self.left.next_beat(self.may_send())
    }

    /// Ends the cycle, in which `ready` was so: always high at a source without `ready`.
    pub fn end_cycle(&mut self, ready: bool)
        ensures { self.new ≡ keeping_behind self.old ready }
    {
        let due = self.is_due(ready);
        let taken = self.is_taken(ready);
        let sends = self.left.next_beat(taken).is_some();
        self.left.end_cycle(taken);
        if ready {
            self.sent = 0;
        } else if sends && self.sent < self.allowance {
            self.sent += 1;
        }
        self.came = self.came || due;
        put_latest(&mut self.lately, ready);
    }
}
