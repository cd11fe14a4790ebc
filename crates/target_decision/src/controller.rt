//! A controller, as far as its own admin queue alone uses it.
ghost use Rattle.std.specs.Prelude.{◌≡◌};
ghost use Rattle.target_decision.specs.Controller.{new_controller, updated};

use crate::consequence::Update;
use admin_queue::Effect;
use property_regs::{ControllerKind, Regs};

/// What a controller has beside what other connections may see of it.
#[derive(Drop)]
pub struct Controller {
    pub registers: Regs,
    /// Keep alive timeout, in ms, as the host set it (Base 2.0, section 3.9). At 0 it never runs out.
    pub kato: u32,
    /// The clock, in ms, when its Keep Alive Timer was last started.
    pub mark: u64,
}

impl Controller {
    /// The controller that a Connect makes when the clock shows `now`.
    pub fn new(kind: ControllerKind, kato: u32, now: u64) -> Controller
        ensures { result ≡ new_controller kind kato now }
    {
        Controller {
            registers: Regs::new(kind),
            kato,
            mark: now,
        }
    }

    /// Changes as a command on its admin queue says, when the clock shows `now`.
    pub fn update(&mut self, update: &Update, now: u64)
        ensures { self.new ≡ updated update.now now self.old }
    {
        match update {
            Update::Configuration(set) => self.registers.configure(set.cc),
            Update::Command(effect) => self.follow(effect, now),
        }
    }

    fn follow(&mut self, effect: &Effect, now: u64)
        ensures { self.new ≡ updated (Update.Command effect.now) now self.old }
    {
        match effect {
            Effect::Nothing | Effect::Notices(_) => {}
            Effect::KeepAlive => self.mark = now,
            Effect::KeepAliveTimeout(kato) => {
                self.kato = *kato;
                self.mark = now;
            }
        }
    }
}
