// The elements of a block. No element whose figures pass their limits can be made.
ghost use Rattle.std.specs.Prelude.{◌≡◌, ◌<◌, ◌≤◌, true, MatchOption};
ghost use Rattle.circuit.specs.Limits.{delay_end};
ghost use Rattle.circuit.specs.Sound.{hold_fits_lem};

use crate::faults::UnknownClass;

// A flip-flop with its setup time and its signed hold time.
#[derive(Clone, Copy)]
pub struct FlipFlop {
    setup: u16,
    hold: i16,
    ghost setup_fits: { setup < delay_end },
    ghost hold_fits: { hold_fits_lem hold ≡ true },
}

impl FlipFlop {
    ghost use Rattle.netlist.specs.Figures.{flop_of};

    pub(crate) fn new(setup: u16, hold: i16) -> FlipFlop
        ensures { flop_of result ≡ record { setup = setup; hold = hold } }
    {
        FlipFlop { setup, hold }
    }

    pub fn setup(&self) -> u16
        ensures { result ≡ (flop_of self.now).setup }
    {
        self.setup
    }

    pub fn hold(&self) -> i16
        ensures { result ≡ (flop_of self.now).hold }
    {
        self.hold
    }
}

// A gate with its smaller and its larger delay.
#[derive(Clone, Copy)]
pub struct Gate {
    smaller: u16,
    larger: u16,
    ghost ordered: { smaller ≤ larger },
    ghost fits: { larger < delay_end },
}

impl Gate {
    ghost use Rattle.netlist.specs.Figures.{gate_of};

    // A gate of these delays, or none where the smaller is above the larger.
    pub(crate) fn new(smaller: u16, larger: u16) -> Option<Gate>
        ensures { MatchOption result (larger < smaller) (λ g. (smaller ≤ larger) × (gate_of g ≡ record { smaller = smaller; larger = larger })) }
    {
        if smaller > larger {
            return None;
        }
        Some(Gate { smaller, larger })
    }

    pub fn smaller(&self) -> u16
        ensures { result ≡ (gate_of self.now).smaller }
    {
        self.smaller
    }

    pub fn larger(&self) -> u16
        ensures { result ≡ (gate_of self.now).larger }
    {
        self.larger
    }
}

// Where a wire starts or ends, by number.
#[derive(Clone, Copy, PartialEq, Eq, Debug)]
pub enum Place {
    FlipFlop(u16),
    Gate(u16),
}

// A place as it is named from outside: class 0 is a flip-flop, class 1 a gate, any other is none.
#[derive(Clone, Copy)]
pub struct Terminal {
    pub class: u8,
    pub number: u16,
}

const FLIP_FLOP_CLASS: u8 = 0;

const GATE_CLASS: u8 = 1;

impl TryFrom<Terminal> for Place {
    ghost use Rattle.netlist.specs.Terminals.{Names};

    type Error = UnknownClass;

    ghost try_from_gives = { Names };

    fn try_from(terminal: Terminal) -> Result<Place, UnknownClass> {
        match terminal.class {
            FLIP_FLOP_CLASS => Ok(Place::FlipFlop(terminal.number)),
            GATE_CLASS => Ok(Place::Gate(terminal.number)),
            _ => Err(UnknownClass),
        }
    }
}

// A wire with its delay.
#[derive(Clone, Copy)]
pub struct Wire {
    start: Place,
    end: Place,
    delay: u16,
    ghost fits: { delay < delay_end },
}

impl Wire {
    ghost use Rattle.netlist.specs.Figures.{wire_of, place_of};

    pub(crate) fn new(start: Place, end: Place, delay: u16) -> Wire
        ensures { wire_of result ≡ record { start = place_of start; end = place_of end; delay = delay } }
    {
        Wire { start, end, delay }
    }

    pub fn start(&self) -> Place
        ensures { place_of result ≡ (wire_of self.now).start }
    {
        self.start
    }

    pub fn end(&self) -> Place
        ensures { place_of result ≡ (wire_of self.now).end }
    {
        self.end
    }

    pub fn delay(&self) -> u16
        ensures { result ≡ (wire_of self.now).delay }
    {
        self.delay
    }

    // Gives the wire another delay.
    pub(crate) fn set_delay(&mut self, delay: u16)
        ensures { wire_of self.new ≡ record { start = (wire_of self.old).start; end = (wire_of self.old).end; delay = delay } }
    {
        self.delay = delay;
    }
}
