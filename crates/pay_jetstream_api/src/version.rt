//! The version of a server.
ghost use Rattle.std.specs.Prelude.{◌≡◌, option_map};
ghost use Rattle.pay_jetstream_api.specs.Versions.{parted, version_of};

use pay_numeral::number_of;

/// The two numbers with which a version begins, as 2 and 10 of `2.10.27`.
#[tactic(auto, unfolding(crate::specs::Versions::version_of))]
pub(crate) fn version_of(version: &str) -> Option<(u64, u64)>
    ensures { result ≡ version_of version.now }
{
    let (major, rest) = parted(version)?;
    let (minor, _) = parted(rest)?;
    Some((number_of(major.as_bytes())?, number_of(minor.as_bytes())?))
}

/// What stands before the first dot and after it, if there is one.
#[tactic(auto, unfolding(crate::specs::Versions::parted))]
fn parted(text: &str) -> Option<(&str, &str)>
    ensures { option_map (λ it. (it.0.now, it.1.now)) result ≡ parted text.now }
{
    text.split_once('.')
}
