// `schema_name` and `item_name`: C gets the start and the stop of the part of the sheet.
ghost use Rattle.declarations.specs.MeaningNamespace.{schema_name, item_name};
ghost use Rattle.namespace.specs.MirrorNames.{name_within};
ghost use Rattle.exports.specs.Promises.{ExportedName};

use namespace::{PathName, name_place};
use sheet::Reading;

// Writes where the name stands, or a refusal's place and 0; answers 0, or the refusal's number.
fn hand_out_name(sheet: &[u8], index: u16, name: PathName, start: &mut u64, stop: &mut u64) -> u8
    ensures { ExportedName (name_within name) sheet.now index result start.new stop.new }
{
    match name_place(Reading::Rust, sheet, index, name) {
        Ok(place) => {
            *start = place.start as u64;
            *stop = place.stop as u64;
            0
        }
        Err(why) => {
            *start = why.place as u64;
            *stop = 0;
            why.reason.into()
        }
    }
}

#[tactic(auto, unfolding(namespace::specs::MirrorNames::name_within))]
#[unsafe(no_mangle)]
pub extern "C" fn dinkolafe_schema_name(
    sheet: &[u8],
    index: u16,
    start: &mut u64,
    stop: &mut u64,
) -> u8
    ensures { ExportedName schema_name sheet.now index result start.new stop.new }
{
    hand_out_name(sheet, index, PathName::Schema, start, stop)
}

#[tactic(auto, unfolding(namespace::specs::MirrorNames::name_within))]
#[unsafe(no_mangle)]
pub extern "C" fn dinkolafe_item_name(
    sheet: &[u8],
    index: u16,
    start: &mut u64,
    stop: &mut u64,
) -> u8
    ensures { ExportedName item_name sheet.now index result start.new stop.new }
{
    hand_out_name(sheet, index, PathName::Item, start, stop)
}
