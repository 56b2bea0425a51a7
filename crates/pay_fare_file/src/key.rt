use std::fmt;

/// A key of a fare file.
#[derive(Clone, Copy)]
pub enum Key {
    Zones,
    Minutes,
    Rules,
    Bus,
    Maximum,
    Hopper,
    SameFree,
    SameLimit,
    Single,
    From,
    To,
    Peak,
    Off,
    Band,
    Day,
    Week,
    Holidays,
    Station,
    Place,
    Low,
    High,
    Operator,
    Route,
    Interchange,
    A,
    B,
    Seconds,
    Edition,
}

impl Key {
    ghost use Rattle.std.specs.Prelude.{◌≡◌};
    ghost use Rattle.pay_fare_file.specs.Spots.{key_name};

    /// The key as it stands in a file.
    pub fn name(self) -> &'static str
        ensures { result.now ≡ key_name self }
    {
        match self {
            Key::Zones => "zones",
            Key::Minutes => "minutes",
            Key::Rules => "rules",
            Key::Bus => "bus",
            Key::Maximum => "maximum",
            Key::Hopper => "hopper",
            Key::SameFree => "same_free",
            Key::SameLimit => "same_limit",
            Key::Single => "single",
            Key::From => "from",
            Key::To => "to",
            Key::Peak => "peak",
            Key::Off => "off",
            Key::Band => "band",
            Key::Day => "day",
            Key::Week => "week",
            Key::Holidays => "holidays",
            Key::Station => "station",
            Key::Place => "place",
            Key::Low => "low",
            Key::High => "high",
            Key::Operator => "operator",
            Key::Route => "route",
            Key::Interchange => "interchange",
            Key::A => "a",
            Key::B => "b",
            Key::Seconds => "seconds",
            Key::Edition => "edition",
        }
    }
}

impl fmt::Display for Key {
    ghost use Rattle.std.specs.Prelude.{Some};
    ghost use Rattle.pay_fare_file.specs.Spots.{key_name};

    ghost output = { λ key. Some (key_name key) };

    fn fmt<W: fmt::Write>(&self, f: &mut fmt::Formatter<W>) -> fmt::Result {
        f.write_str(self.name())
    }
}
