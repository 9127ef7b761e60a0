// Records: an owner and the nodes of its expression, from the bytes of a sheet into a stream.
#![tactic(auto)]

ghost use Rattle.std.specs.Prelude.{◌≡◌, ◌+◌, ◌-◌, ◌*◌, ◌≤◌, ◌<◌, length};
ghost use Rattle.refusal.specs.Told.{told};
ghost use Rattle.sheet.specs.Told.{told_reading};
ghost use Rattle.schemas.specs.MeaningTree.{tree_at};
ghost use Rattle.schemas.specs.MeaningSchemas.{terms_of, expr_of, mark_of, entity_of};
ghost use Rattle.declarations.specs.MeaningNamespace.{schemas_in};
ghost use Rattle.declarations.specs.MirrorNamespace.{schema_scope, LastSchemaOf};
ghost use Rattle.records.specs.MeaningResolving.{rule_of};
ghost use Rattle.records.specs.MirrorRecords.{size, sizes, level, levels, number_meant, own_number, Meets, word_at, expr_in, SpellsExpr, gives_rule, Appends, Kept, Within, Deep, Room, schema_named, expr_numbers, terms_numbers, record_kept};

use declarations::{LastSchema, last_schema};
use expression::{Kind, NODE, put_node};
use lookup::{Span, name_of};
use refusal::{Reason, Refusal};
use resolving::{first_in, meant_in};
use scope::ScopeType;
use sheet::{Field, Reading, field_at};

// The calls that reading takes, one within the other: two for each of 5 levels.
const DEPTH: usize = 10;

// The next field from `at` on with a tag between two.
pub fn next_field(sheet: &[u8], at: usize, end: usize, low: u8, high: u8) -> Option<Field>
    requires { (at ≤ end) × (end ≤ length sheet.now) }
    ensures { Meets sheet.now at end low high result }
{
    let mut from = at;
    while let Some(field) = field_at(sheet, from, end) {
        if low <= field.tag && field.tag <= high {
            return Some(field);
        }
        from = field.stop;
    }
    None
}

// The first expression in a field's value.
#[tactic(auto, using(crate::proofs::Spelling::spelling))]
pub fn expr_of(sheet: &[u8], field: Field) -> Option<Field>
    requires { (field.start ≤ field.stop) × (field.stop ≤ length sheet.now) }
    ensures { SpellsExpr sheet.now (expr_of (tree_at sheet.now field.start field.stop)) result }
{
    next_field(sheet, field.start, field.stop, 0x50, 0x53)
}

// Whether what a field with the tag marks an entity with is a rule.
#[tactic(auto, using(crate::proofs::Spelling::giving))]
fn gives_rule(reading: Reading, tag: u8) -> bool
    ensures { result ≡ gives_rule (told_reading reading) tag }
{
    match reading {
        Reading::Rust => tag == 0x31,
    }
}

// The expression of an entity's rule.
pub fn rule_of(reading: Reading, sheet: &[u8], entity: Field) -> Option<Field>
    requires { (entity.start ≤ entity.stop) × (entity.stop ≤ length sheet.now) }
    ensures { SpellsExpr sheet.now (rule_of (told_reading reading) (mark_of (tree_at sheet.now entity.start entity.stop))) result }
{
    let mark = next_field(sheet, entity.start, entity.stop, 0x31, 0x33)?;
    if gives_rule(reading, mark.tag) {
        return expr_of(sheet, mark);
    }
    None
}

// A schema of a sheet, in which names are resolved: the scope is its name, and the last schema of that name is known.
#[derive(Clone, Copy)]
pub struct Schema<'a> {
    pub reading: Reading,
    pub sheet: &'a [u8],
    pub scope: &'a [u8],
    pub last: Option<LastSchema>,
    ghost is_last: { ∥ LastSchemaOf (told_reading reading) sheet.now scope.now last ∥₁ },
}

impl<'a> Schema<'a> {
    // The last schema of the name is looked for.
    pub fn new(reading: Reading, sheet: &'a [u8], scope: &'a [u8]) -> Self
        requires { length sheet.now ≤ 65535 }
        ensures { (result.reading ≡ reading) × (result.sheet.now ≡ sheet.now) × (result.scope.now ≡ scope.now) }
    {
        let last = last_schema(reading, sheet, scope);
        Schema {
            reading,
            sheet,
            scope,
            last,
        }
    }

    // The number of what a name means in the schema.
    #[tactic(auto, using(crate::proofs::Meaning::meaning))]
    pub fn number_of(&self, name: Span) -> Result<u16, Refusal>
        requires { Within self.now.sheet.now name.start name.stop }
        ensures { told result ≡ number_meant (told_reading self.now.reading) (schemas_in self.now.sheet.now) (schema_scope self.now.scope.now) (word_at self.now.sheet.now name.start name.stop) }
    {
        let undeclared = Refusal::at(Reason::Undeclared, name.start);
        let name = &self.sheet[name.start..name.stop];
        meant_in(self.reading, self.sheet, self.scope, self.last, name).ok_or(undeclared)
    }

    // The number of an entity itself, which is not resolved.
    #[tactic(auto, using(lookup::proofs::Names::spanned, crate::proofs::Meaning::owning))]
    pub fn own_number(&self, entity: Field) -> u16
        requires { Within self.now.sheet.now entity.start entity.stop }
        ensures { result ≡ own_number (told_reading self.now.reading) (schemas_in self.now.sheet.now) (schema_named self.now.scope.now) (entity_of 0 (tree_at self.now.sheet.now entity.start entity.stop)) }
    {
        let Span { start, stop } = name_of(self.sheet, entity.start, entity.stop);
        let name = &self.sheet[start..stop];
        first_in(
            self.reading,
            self.sheet,
            self.scope,
            self.last,
            ScopeType::Entity,
            name,
        )
        .unwrap_or(0)
    }

    // An expression's field, as nodes behind those that stand at the front. The depth falls at each call, and a level takes two.
    // The stream is lent memory of a fixed length, of which so many numbers are used: there is no heap.
    #[cycle(read_node_read_terms)]
    fn read_node(
        &self,
        field: Field,
        stream: &mut [u16],
        used: usize,
        depth: usize,
    ) -> Result<usize, Refusal>
        requires within { Within self.now.sheet.now field.start field.stop × (0x50 ≤ field.tag) × (field.tag ≤ 0x53) }
        requires deep { Deep (size (expr_in self.now.sheet.now field.tag field.start field.stop)) (2 * level (expr_in self.now.sheet.now field.tag field.start field.stop)) used depth stream.old }
        ensures { Appends (expr_numbers (told_reading self.now.reading) (schemas_in self.now.sheet.now) self.now.scope.now (expr_in self.now.sheet.now field.tag field.start field.stop)) (told result) used stream.old stream.new }
    {
        if field.tag == 0x50 {
            let number = self.number_of(field.into())?;
            let kind = u16::from(Kind::Reference);
            return Ok(put_node(stream, used, kind, number, NODE as u16));
        }
        let kind = u16::from(field.tag - 0x50);
        let body = put_node(stream, used, kind, 0, 0);
        let answer = self.read_terms(field, stream, body, depth - 1);
        // here and below a refusal is handed up unaltered, in the form that docs/01-scope.md asks for
        let Ok(next) = answer else {
            return answer;
        };
        // how many numbers stand under the node is known now
        stream[used + 2] = (next - used) as u16;
        Ok(next)
    }

    // All expressions in a field's value, one behind the other.
    #[cycle(read_node_read_terms)]
    fn read_terms(
        &self,
        field: Field,
        stream: &mut [u16],
        used: usize,
        depth: usize,
    ) -> Result<usize, Refusal>
        requires within { Within self.now.sheet.now field.start field.stop }
        requires deep { Deep (sizes (terms_of (tree_at self.now.sheet.now field.start field.stop))) (2 * levels (terms_of (tree_at self.now.sheet.now field.start field.stop)) + 1) used depth stream.old }
        ensures { Appends (terms_numbers (told_reading self.now.reading) (schemas_in self.now.sheet.now) self.now.scope.now (terms_of (tree_at self.now.sheet.now field.start field.stop))) (told result) used stream.old stream.new }
    {
        let mut n = used;
        let mut from = field.start;
        while let Some(term) = next_field(self.sheet, from, field.stop, 0x50, 0x53) {
            let answer = self.read_node(term, stream, n, depth - 1);
            let Ok(next) = answer else {
                return answer;
            };
            n = next;
            from = term.stop;
        }
        Ok(n)
    }

    // A record: its owner, and behind it the nodes of its expression.
    pub fn put_record(
        &self,
        owner: u16,
        field: Field,
        stream: &mut [u16],
        used: usize,
    ) -> Result<usize, Refusal>
        requires within { Within self.now.sheet.now field.start field.stop × (0x50 ≤ field.tag) × (field.tag ≤ 0x53) }
        requires room { Room (size (expr_in self.now.sheet.now field.tag field.start field.stop)) (level (expr_in self.now.sheet.now field.tag field.start field.stop)) used stream.old }
        ensures { Kept (record_kept (told_reading self.now.reading) (schemas_in self.now.sheet.now) self.now.scope.now owner (expr_in self.now.sheet.now field.tag field.start field.stop)) (told result) used stream.old stream.new }
    {
        let answer = self.read_node(field, stream, used + 1, DEPTH);
        let Ok(next) = answer else {
            return answer;
        };
        stream[used] = owner;
        Ok(next)
    }
}
