// Gathering: from the bytes of a sheet into a stream of records, rules first, then constraints, then names in SUBTYPE OF.
#![tactic(auto)]

ghost use Rattle.std.specs.Prelude.{◌≡◌, ℕ, refl, [], ◌∷◌, ◌++◌, ◌+◌, ◌-◌, ◌≤◌, ◌<◌, length, take};
ghost use Rattle.refusal.specs.Told.{told};
ghost use Rattle.sheet.specs.Told.{told_reading};
ghost use Rattle.schemas.specs.MeaningTree.{tree_at, tree_of};
ghost use Rattle.schemas.specs.MeaningSchemas.{name_of, names_of, supertypes_of};
ghost use Rattle.declarations.specs.MeaningNamespace.{schemas_in};
ghost use Rattle.declarations.specs.MirrorNamespace.{schema_scope};
ghost use Rattle.records.specs.MirrorRecords.{Kept, Within, Room, schema_named};
ghost use Rattle.gathering.specs.MeaningGathering.{through, supers_of};
ghost use Rattle.gathering.specs.MirrorGathering.{Bounded, streams};
ghost use Rattle.gathering.specs.MirrorWalk.{Step, tag_for, is_full, gives, Begins, super_kept, item_kept, items_kept, all_kept, item_size, item_level, items_size, items_level, all_size, all_level, told_gathered, Streamed};

use expression::{Kind, NODE, put_node};
use lookup::{Span, name_of};
use merging::is_owner;
use records::{Schema, expr_of, next_field, rule_of};
use refusal::{Reason, Refusal};
use sheet::{Field, Reading};

// What is gathered: rules and constraints stand at the front of the stream, names in SUBTYPE OF behind them.
#[derive(Clone, Copy)]
pub struct Streams {
    pub rules: usize,
    pub used: usize,
}

// A pass over the schemas: it goes over the fields with a tag, and makes records of those that give it something to resolve.
trait Pass {
    ghost step: { Step };

    ghost TAG: { ℕ };

    const TAG: u8;

    // Whether the pass resolves anything in a field.
    fn gives(reading: Reading, sheet: &[u8], field: Field) -> bool
        requires { (field.start ≤ field.stop) × (field.stop ≤ length sheet.now) }
        ensures { result ≡ gives (told_reading reading) step (tree_at sheet.now field.start field.stop) };

    // The records of one field of a schema's, behind those at the front: the stream is lent memory, of which so many numbers are used.
    fn item(
        schema: &Schema,
        field: Field,
        stream: &mut [u16],
        used: usize,
    ) -> Result<usize, Refusal>
        requires within { Within schema.now.sheet.now field.start field.stop × (3 ≤ field.start) }
        requires room { Room (item_size step (tree_at schema.now.sheet.now field.start field.stop)) (item_level step (tree_at schema.now.sheet.now field.start field.stop)) used stream.old }
        ensures { Kept (item_kept (told_reading schema.now.reading) (schemas_in schema.now.sheet.now) step (schema_named schema.now.scope.now) (field.start - 3) (tree_at schema.now.sheet.now field.start field.stop)) (told result) used stream.old stream.new };

    ghost tagged: { TAG ≡ tag_for step };
}

// Step b, for entities: names are resolved first, then a second rule for the same owner is refused.
struct Rules;

impl Pass for Rules {
    ghost step = { Step.Rules };

    ghost TAG = { 0x30 };

    ghost tagged = { refl };

    const TAG: u8 = 0x30;

    #[tactic(auto, using(crate::proofs::Beginning::given_by))]
    fn gives(reading: Reading, sheet: &[u8], field: Field) -> bool {
        rule_of(reading, sheet, field).is_some()
    }

    fn item(
        schema: &Schema,
        field: Field,
        stream: &mut [u16],
        used: usize,
    ) -> Result<usize, Refusal> {
        let Some(rule) = rule_of(schema.reading, schema.sheet, field) else {
            return Ok(used);
        };
        let owner = schema.own_number(field);
        let answer = schema.put_record(owner, rule, stream, used);
        // here and below a refusal is handed up unaltered, in the form that docs/01-scope.md asks for
        let Ok(next) = answer else {
            return answer;
        };
        if is_owner(&stream[..used], owner) {
            return Err(Refusal::at(Reason::SecondRule, field.start - 3));
        }
        Ok(next)
    }
}

// Step d, for constraints: without an expression nothing is resolved.
struct Constraints;

impl Pass for Constraints {
    ghost step = { Step.Constraints };

    ghost TAG = { 0x40 };

    ghost tagged = { refl };

    const TAG: u8 = 0x40;

    #[tactic(auto, using(crate::proofs::Beginning::given_by))]
    fn gives(_reading: Reading, sheet: &[u8], field: Field) -> bool {
        expr_of(sheet, field).is_some()
    }

    fn item(
        schema: &Schema,
        field: Field,
        stream: &mut [u16],
        used: usize,
    ) -> Result<usize, Refusal> {
        let Some(expr) = expr_of(schema.sheet, field) else {
            return Ok(used);
        };
        let owner = schema.number_of(name_of(schema.sheet, field.start, field.stop))?;
        schema.put_record(owner, expr, stream, used)
    }
}

// A record whose expression is a reference.
#[tactic(auto, using(crate::proofs::Pairs::pairing))]
fn put_pair(stream: &mut [u16], used: usize, owner: u16, index: u16) -> usize
    requires { (used + 4 ≤ length stream.old) × (length stream.old < 65536) }
    ensures { (result ≡ used + 4) × (take (used + 4) stream.new ≡ take used stream.old ++ (owner ∷ 0 ∷ index ∷ 3 ∷ [])) }
{
    stream[used] = owner;
    let kind = u16::from(Kind::Reference);
    put_node(stream, used + 1, kind, index, NODE as u16)
}

// A record for each of the names in a field's value, in order.
fn put_pairs(
    schema: &Schema,
    own: u16,
    supers: Field,
    stream: &mut [u16],
    used: usize,
) -> Result<usize, Refusal>
    requires within { Within schema.now.sheet.now supers.start supers.stop }
    requires room { Room (length (names_of (tree_at schema.now.sheet.now supers.start supers.stop))) 0 used stream.old }
    ensures { Kept (through (super_kept (told_reading schema.now.reading) (schemas_in schema.now.sheet.now) (schema_scope schema.now.scope.now) own) (names_of (tree_at schema.now.sheet.now supers.start supers.stop))) (told result) used stream.old stream.new }
{
    let mut n = used;
    let mut from = supers.start;
    while let Some(name) = next_field(schema.sheet, from, supers.stop, 0x10, 0x10) {
        let owner = schema.number_of(name.into())?;
        n = put_pair(stream, n, owner, own);
        from = name.stop;
    }
    Ok(n)
}

// Step c, for entities: their names in SUBTYPE OF.
struct Subtypes;

impl Pass for Subtypes {
    ghost step = { Step.Subtypes };

    ghost TAG = { 0x30 };

    ghost tagged = { refl };

    const TAG: u8 = 0x30;

    #[tactic(auto, using(crate::proofs::Beginning::given_by, records::proofs::Seeking::meeting))]
    fn gives(_reading: Reading, sheet: &[u8], field: Field) -> bool {
        let Some(supers) = next_field(sheet, field.start, field.stop, 0x34, 0x34) else {
            return false;
        };
        next_field(sheet, supers.start, supers.stop, 0x10, 0x10).is_some()
    }

    fn item(
        schema: &Schema,
        field: Field,
        stream: &mut [u16],
        used: usize,
    ) -> Result<usize, Refusal> {
        let Some(supers) = next_field(schema.sheet, field.start, field.stop, 0x34, 0x34) else {
            return Ok(used);
        };
        let own = schema.own_number(field);
        put_pairs(schema, own, supers, stream, used)
    }
}

// The fields of the pass from the first on that gives something to resolve begin here; at the end where none does.
#[tactic(auto, using(crate::proofs::Beginning::passing, records::proofs::Seeking::meeting))]
fn first_given<P: Pass>(reading: Reading, sheet: &[u8], at: usize, end: usize) -> usize
    requires { (at ≤ end) × (end ≤ length sheet.now) }
    ensures { Begins (told_reading reading) P.step sheet.now at end result }
{
    let tag = P::TAG;
    let mut from = at;
    while let Some(field) = next_field(sheet, from, end, tag, tag) {
        if P::gives(reading, sheet, field) {
            return from;
        }
        from = field.stop;
    }
    end
}

// All fields of the pass in the schema.
fn items<P: Pass>(
    schema: &Schema,
    at: usize,
    end: usize,
    stream: &mut [u16],
    used: usize,
) -> Result<usize, Refusal>
    requires within { Within schema.now.sheet.now at end }
    requires room { Room (items_size P.step (tree_at schema.now.sheet.now at end)) (items_level P.step (tree_at schema.now.sheet.now at end)) used stream.old }
    ensures { Kept (items_kept (told_reading schema.now.reading) (schemas_in schema.now.sheet.now) P.step schema.now.scope.now (tree_at schema.now.sheet.now at end)) (told result) used stream.old stream.new }
{
    let tag = P::TAG;
    let mut n = used;
    let mut from = at;
    while let Some(field) = next_field(schema.sheet, from, end, tag, tag) {
        let answer = P::item(schema, field, stream, n);
        let Ok(next) = answer else {
            return answer;
        };
        n = next;
        from = field.stop;
    }
    Ok(n)
}

// The pass over a schema, whose name is the scope of all in it. The last schema of its name is looked for where there is a name to resolve.
#[tactic(auto, using(crate::proofs::Beginning::beginning, lookup::proofs::Names::spanned))]
fn in_schema<P: Pass>(
    reading: Reading,
    sheet: &[u8],
    field: Field,
    stream: &mut [u16],
    used: usize,
) -> Result<usize, Refusal>
    requires within { Within sheet.now field.start field.stop }
    requires room { Room (items_size P.step (tree_at sheet.now field.start field.stop)) (items_level P.step (tree_at sheet.now field.start field.stop)) used stream.old }
    ensures { Kept (items_kept (told_reading reading) (schemas_in sheet.now) P.step (name_of (tree_at sheet.now field.start field.stop)).bytes (tree_at sheet.now field.start field.stop)) (told result) used stream.old stream.new }
{
    let from = first_given::<P>(reading, sheet, field.start, field.stop);
    if from == field.stop {
        return Ok(used);
    }
    let Span { start, stop } = name_of(sheet, field.start, field.stop);
    let schema = Schema::new(reading, sheet, &sheet[start..stop]);
    items::<P>(&schema, from, field.stop, stream, used)
}

// The pass over all schemas.
fn walk<P: Pass>(
    reading: Reading,
    sheet: &[u8],
    stream: &mut [u16],
    used: usize,
) -> Result<usize, Refusal>
    requires sheet_len_bound { length sheet.now ≤ 65535 }
    requires room { Room (all_size P.step (tree_of sheet.now)) (all_level P.step (tree_of sheet.now)) used stream.old }
    ensures { Kept (all_kept (told_reading reading) (schemas_in sheet.now) P.step (tree_of sheet.now)) (told result) used stream.old stream.new }
{
    let end = sheet.len();
    let mut n = used;
    let mut from = 0;
    while let Some(field) = next_field(sheet, from, end, 0x01, 0x01) {
        let answer = in_schema::<P>(reading, sheet, field, stream, n);
        let Ok(next) = answer else {
            return answer;
        };
        n = next;
        from = field.stop;
    }
    Ok(n)
}

// Rules, then constraints, then names in SUBTYPE OF: a refusal as gathering meets it.
pub fn gather(reading: Reading, sheet: &[u8], stream: &mut [u16]) -> Result<Streams, Refusal>
    requires sheet_len_bound { (length sheet.now ≤ 65535) × Bounded (schemas_in sheet.now) }
    requires in_bounds { (2048 ≤ length stream.old) × (length stream.old < 65536) }
    ensures { Streamed (streams (told_reading reading) (schemas_in sheet.now)) (told_gathered result) stream.new }
{
    let ruled = walk::<Rules>(reading, sheet, stream, 0)?;
    let rules = walk::<Constraints>(reading, sheet, stream, ruled)?;
    let used = walk::<Subtypes>(reading, sheet, stream, rules)?;
    Ok(Streams { rules, used })
}
