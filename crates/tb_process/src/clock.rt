//! How a phase begins: the clock gets its new value.
ghost use Rattle.std.specs.Prelude.{◌≡◌, ◌<◌, [], length, slice_index};
ghost use Rattle.tb_machine.specs.Phases.{event_of_phase};
ghost use Rattle.tb_bench.specs.Settings.{with_clock};

use mcy_base::Word;
use tb_bench::Clock;
use tb_machine::{Event, Scene};

/// What happens to the clock in a phase: the simulation starts, and then the clock rises and falls in turn.
pub(crate) fn event_of(phase: u64) -> Event
    ensures { result ≡ event_of_phase phase }
{
    if phase == 0 {
        return Event::Start;
    }
    if phase % 2 == 1 {
        Event::Rise
    } else {
        Event::Fall
    }
}

/// A word of the same width whose bits are all 0.
fn zero_of(word: Word) -> Word
    ensures width { result.width ≡ word.width }
    ensures bits { result.bits ≡ 0 }
{
    Word::new(word.width(), 0).unwrap()
}

/// The clock gets its new value.
fn set_clock(clock: Clock, event: Event, scene: &mut Scene)
    requires known { clock.signal < length scene.old.widths }
    requires width { clock.high.width ≡ slice_index scene.old.widths clock.signal }
    ensures { scene.new ≡ record scene.old { store = with_clock clock event scene.old.store } }
{
    match event {
        Event::Start => {}
        Event::Rise => scene.set(clock.signal, clock.high),
        Event::Fall => scene.set(clock.signal, zero_of(clock.high)),
    }
}

/// A phase begins: nothing was printed in it yet, and the clock gets its new value.
pub(crate) fn begin_phase(clock: Clock, event: Event, scene: &mut Scene)
    requires known { clock.signal < length scene.old.widths }
    requires width { clock.high.width ≡ slice_index scene.old.widths clock.signal }
    ensures { scene.new ≡ record scene.old { store = with_clock clock event scene.old.store; text = [] } }
{
    scene.clear_text();
    set_clock(clock, event, scene);
}
