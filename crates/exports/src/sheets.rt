// The questions on sheets and queries that borrow no workspace.
ghost use Rattle.grammar.specs.MeaningReading.Reading.{rust};
ghost use Rattle.sheet.specs.Promises.{PromiseVerdict};
ghost use Rattle.query.specs.Promises.{PromiseOrder};
ghost use Rattle.namespace.specs.Promises.{PromiseResolve, PromiseGet, PromisePath};
ghost use Rattle.codes.specs.Told.{numbered, judged, compared_scopes};
ghost use Rattle.exports.specs.Promises.{Exported};

use codes::hand_out;

#[unsafe(no_mangle)]
pub extern "C" fn dinkolafe_verdict(sheet: &[u8], value: &mut u64) -> u8
    ensures { Exported judged (λ a. PromiseVerdict rust sheet.now a) result value.new }
{
    hand_out(sheet::verdict(sheet), value)
}

#[unsafe(no_mangle)]
pub extern "C" fn dinkolafe_order(left: &[u8], right: &[u8], value: &mut u64) -> u8
    ensures { Exported compared_scopes (λ a. PromiseOrder rust left.now right.now a) result value.new }
{
    hand_out(query::order(left, right), value)
}

#[unsafe(no_mangle)]
pub extern "C" fn dinkolafe_resolve(sheet: &[u8], query: &[u8], value: &mut u64) -> u8
    ensures { Exported numbered (λ a. PromiseResolve rust sheet.now query.now a) result value.new }
{
    hand_out(namespace::resolve(sheet, query), value)
}

#[unsafe(no_mangle)]
pub extern "C" fn dinkolafe_get(sheet: &[u8], query: &[u8], value: &mut u64) -> u8
    ensures { Exported numbered (λ a. PromiseGet rust sheet.now query.now a) result value.new }
{
    hand_out(namespace::get(sheet, query), value)
}

#[unsafe(no_mangle)]
pub extern "C" fn dinkolafe_as_path(sheet: &[u8], index: u16, value: &mut u64) -> u8
    ensures { Exported judged (λ a. PromisePath rust sheet.now index a) result value.new }
{
    hand_out(namespace::as_path(sheet, index), value)
}
