//! Which keys are read in which table.
ghost use Rattle.std.specs.Prelude.{◌≡◌};
ghost use Rattle.pay_warnings.specs.Warnings.{file_keys, is_among, keys_in};

use pay_fare_file::Key;

/// The keys of a fare file.
pub fn file_keys() -> &'static [Key]
    ensures { result.now ≡ file_keys }
{
    &[
        Key::Zones,
        Key::Minutes,
        Key::Rules,
        Key::Single,
        Key::Band,
        Key::Holidays,
        Key::Station,
        Key::Route,
        Key::Interchange,
        Key::Edition,
    ]
}

/// The keys of the table at a key, or of each item of the array there.
pub fn keys_in(table: Key) -> &'static [Key]
    ensures { result.now ≡ keys_in table }
{
    match table {
        Key::Rules => &[
            Key::Bus,
            Key::Maximum,
            Key::Hopper,
            Key::SameFree,
            Key::SameLimit,
        ],
        Key::Single => &[Key::From, Key::To, Key::Peak, Key::Off],
        Key::Band => &[Key::From, Key::To, Key::Day, Key::Week],
        Key::Station => &[Key::Place, Key::Low, Key::High, Key::Operator],
        Key::Route => &[Key::Place, Key::Operator],
        Key::Interchange => &[Key::A, Key::B, Key::Seconds],
        Key::Edition => &[Key::Day, Key::Minutes, Key::Rules, Key::Single, Key::Band],
        _ => &[],
    }
}

/// Whether a name is that of one of these keys.
pub fn is_among(known: &[Key], name: &str) -> bool
    ensures { result ≡ is_among known.now name.now }
{
    known.iter().any(|key| key.name() == name)
}
