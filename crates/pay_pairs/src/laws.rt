//! What is true of legs themselves.

ghost use Rattle.std.specs.Prelude.{◌≡◌, true, false, List};
ghost use Rattle.pay_tables.specs.Words.{FareEditions};
ghost use Rattle.pay_rules.specs.declared.tap.Touch.{Touch};
ghost use Rattle.pay_rules.specs.declared.parts.RailPart.{RailPart};
ghost use Rattle.pay_rules.specs.Legs.{AreParts, is_leg, legs};

/// Any taps in order are parted into legs and lone taps in one way, and it can be computed.
pub fn one_parting()
    ensures there { (editions : FareEditions) (taps : List Touch) → AreParts editions taps (legs editions taps) }
    ensures one { (editions : FareEditions) (taps : List Touch) (parts others : List RailPart) →
        AreParts editions taps parts → AreParts editions taps others → parts ≡ others }
{}

/// No tap is in two legs: where one ends a leg, it does not begin the next.
pub fn one_leg_each()
    ensures { (editions : FareEditions) (entry exit next : Touch) → is_leg editions entry exit ≡ true → is_leg editions exit next ≡ false }
{}
