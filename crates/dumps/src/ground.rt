ghost use Rattle.std.specs.Prelude.{◌≡◌, Some};
ghost use Rattle.dumps.specs.Ground.{number_of, reason};

use std::fmt;

// Why a line of a dump is refused.
#[derive(Clone, Copy, PartialEq, Eq, Debug)]
pub enum Ground {
    // a foreign character, an odd digit count, an empty line or no line feed
    Spelling = 1,
    // an unknown kind or a wrong length
    Shape = 2,
    // a frame out of its order
    Order = 3,
    // a domain set outside its limits
    Domains = 4,
    // one flip-flop, gate or wire too many
    Surplus = 5,
    // a smaller delay above the larger one
    Delays = 6,
    // a wire that names a class or number that is not there
    Absent = 7,
    // a wire between gates that does not start at the smaller number
    Backward = 8,
    // a gate with no wire in or no wire out
    Open = 9,
}

impl Ground {
    // The number by which netlist export knows the ground.
    pub fn number(self) -> u8
        ensures { result ≡ number_of self }
    {
        self as u8
    }

    // What is wrong, in words.
    pub fn reason(self) -> &'static str
        ensures { result.now ≡ reason (number_of self) }
    {
        match self {
            Ground::Spelling => "foreign character, odd digit count, empty line or no line feed",
            Ground::Shape => "unknown kind or wrong length",
            Ground::Order => "frame out of its order or no end",
            Ground::Domains => "domain set outside its limits",
            Ground::Surplus => "one flip-flop, gate or wire too many",
            Ground::Delays => "smaller delay above the larger",
            Ground::Absent => "wire names a class or number that is not there",
            Ground::Backward => "wire between gates does not start at the smaller number",
            Ground::Open => "gate with no wire in or no wire out",
        }
    }
}

impl fmt::Display for Ground {
    ghost output = { λ ground. Some (reason (number_of ground)) };

    fn fmt<W: fmt::Write>(&self, f: &mut fmt::Formatter<W>) -> fmt::Result {
        f.write_str(self.reason())
    }
}
