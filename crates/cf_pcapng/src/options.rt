//! The options of a block.
ghost use Rattle.std.specs.Prelude.{◌≡◌, ◌<◌, ◌==◌, ◌&&◌, length, option_map};
ghost use Rattle.cf_pcapng.specs.Options.{first_option, block_option_value, options_of, padded, resolution_of};

use cf_pcap::u16_at;
use cf_view::View;

/// The code of the option that says the unit of time. draft-ietf-opsawg-pcapng, section 4.2.
const RESOLUTION: u16 = 9;

/// The unit of time where no option says one: 10 to the power of −6 seconds.
pub(crate) const MICROSECONDS: u8 = 6;

/// An option of a block, and how many octets it takes with its padding.
#[derive(Drop)]
pub(crate) struct BlockOption<'a> {
    pub(crate) code: u16,
    pub(crate) value: &'a [u8],
    pub(crate) size: usize,
}

/// A number of octets, padded to whole groups of four.
pub(crate) fn padded(count: usize) -> usize
    requires { count < 4294967296 }
    ensures { result ≡ padded count }
{
    (count + 3) / 4 * 4
}

/// The octet that says the unit of time, in the options of an interface description.
#[tactic(auto, using(crate::proofs::OptionLists::options_end, crate::proofs::OptionLists::options_step))]
pub(crate) fn resolution_in(options: &[u8], big_endian: bool) -> u8
    ensures { result ≡ resolution_of (options_of big_endian options.now) }
{
    let mut rest = options;
    'options: while let Some(option) = first_option(rest, big_endian) {
        if is_resolution(&option) {
            return option.value[0];
        }
        rest = &rest[option.size..];
    }
    MICROSECONDS
}

/// Whether an option says the unit of time.
fn is_resolution(option: &BlockOption<'_>) -> bool
    ensures { result ≡ ((option.now.code == 9) && (length option.now.value.now == 1)) }
{
    option.code == RESOLUTION && option.value.len() == 1
}

/// The option that begins the octets. draft-ietf-opsawg-pcapng, section 3.5.
fn first_option(octets: &[u8], big_endian: bool) -> Option<BlockOption<'_>>
    ensures { option_map block_option_value result ≡ first_option big_endian octets.now }
{
    if octets.len() < 4 {
        return None;
    }
    let head = View::one(octets);
    let code = u16_at(&head, 0, big_endian);
    if code == 0 {
        return None;
    }
    let count = usize::from(u16_at(&head, 2, big_endian));
    let size = 4 + padded(count);
    if octets.len() < size {
        return None;
    }
    Some(BlockOption {
        code,
        value: &octets[4..4 + count],
        size,
    })
}
