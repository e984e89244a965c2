// A target's configuration as a bench file and a C caller tell it: four words, of which 0xFFFFFFFF is no secondary address and
// no mask. Only here does that word mean so; in the core every word is an address.
#![tactic(auto)]

ghost use Rattle.std.specs.Prelude.{◌≡◌};
ghost use Rattle.address_words.specs.Words.{mode_of, secondary_in, config_in};

use calls::{AddressMode, TargetConfig};

// By hand: a bench file and C write an address or none in one word.
const NONE: u32 = 0xFFFF_FFFF;

// By hand: `AddressMode` is of `calls`, and only here does a bool mean one.
pub fn address_mode(ten: bool) -> AddressMode
    ensures { result ≡ mode_of ten }
{
    if ten {
        AddressMode::AddressMode10bit
    } else {
        AddressMode::AddressMode7bit
    }
}

// What a word says, of a mask as of a secondary address.
fn some_unless_none(word: u32) -> Option<u32>
    ensures { result ≡ secondary_in word }
{
    (word != NONE).then_some(word)
}

// Each word goes in by its setter.
pub fn config(own: u32, ten: u32, secondary: u32, mask: u32) -> TargetConfig
    ensures { result ≡ config_in own ten secondary mask }
{
    let mut config = TargetConfig::new(0)
        .own_address(own)
        .own_address_mode(address_mode(ten != 0));
    if let Some(address) = some_unless_none(secondary) {
        config = config.secondary_address(address);
    }
    if let Some(bits) = some_unless_none(mask) {
        config = config.secondary_address_mask_bits(bits);
    }
    config
}
