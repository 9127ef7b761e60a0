// after espr/src/ir/namespace.rs of ruststep cd89e5a7cd, Apache-2.0; changed
//
// What a name means in a scope, and which declaration a path leads to, by number.
#![tactic(auto)]

ghost use Rattle.std.specs.Prelude.{◌≡◌, ◌≤◌, length};
ghost use Rattle.sheet.specs.Told.{told_reading};
ghost use Rattle.scope.specs.Told.{told_kind, told_scope, told_path};
ghost use Rattle.scope.specs.MirrorScope.{Spans};
ghost use Rattle.declarations.specs.MeaningNamespace.{schemas_in, declaration_for, resolved};
ghost use Rattle.declarations.specs.MirrorNamespace.{path_to, sought_of, LastSchemaOf, meant_in};

use declarations::{LastSchema, first_of, in_kind, in_schema, last_schema};
use scope::{Path, Rung, Scope, ScopeType};
use sheet::Reading;

// The number of the first declaration of a kind and a name in a schema of the name `scope`, whose last one is known: if no other schema has the name, that one alone is searched.
#[tactic(auto, using(crate::proofs::Leading::firsts))]
pub fn first_in(
    reading: Reading,
    sheet: &[u8],
    scope: &[u8],
    last: Option<LastSchema>,
    kind: ScopeType,
    name: &[u8],
) -> Option<u16>
    requires { (length sheet.now ≤ 65535) × LastSchemaOf (told_reading reading) sheet.now scope.now last }
    ensures { result ≡ sought_of (declaration_for (told_reading reading) (schemas_in sheet.now) (path_to scope.now (told_kind kind) name.now)) }
{
    let LastSchema { numbers, alone } = last?;
    if alone {
        return in_kind(reading, sheet, numbers, kind, name).ok();
    }
    first_of(reading, sheet, scope, kind, name)
}

// ---- What a name means.

// The number of what the name resolves to in a scope: only the outermost step can be a schema.
#[tactic(auto, using(crate::proofs::Leading::reaching_names))]
pub fn resolved_for(
    reading: Reading,
    sheet: &[u8],
    query: &[u8],
    scope: Scope,
    name: &[u8],
) -> Option<u16>
    requires { (length sheet.now ≤ 65535) × Spans query.now scope.one }
    ensures { result ≡ sought_of (resolved (told_reading reading) (schemas_in sheet.now) (told_scope query.now scope) name.now) }
{
    let Rung {
        kind: ScopeType::Schema,
        start,
        stop,
    } = scope.one
    else {
        return None;
    };
    if scope.count == 0 {
        return None;
    }
    let last = last_schema(reading, sheet, &query[start..stop])?;
    in_schema(reading, sheet, last.numbers, name).ok()
}

// The number of the first declaration with a path, which the query holds.
#[tactic(auto, using(crate::proofs::Leading::routing))]
pub fn number_for(reading: Reading, sheet: &[u8], query: &[u8], path: Path) -> Option<u16>
    requires { (length sheet.now ≤ 65535) × Spans query.now path.scope.one × Spans query.now path.item }
    ensures { result ≡ sought_of (declaration_for (told_reading reading) (schemas_in sheet.now) (told_path query.now path)) }
{
    let Path { scope, item } = path;
    let Scope {
        count: 1,
        one: Rung {
            kind: ScopeType::Schema,
            start,
            stop,
        },
        ..
    } = scope
    else {
        return None;
    };
    let name = &query[item.start..item.stop];
    first_of(reading, sheet, &query[start..stop], item.kind, name)
}

// The number that a name in a schema stands for: that of the first declaration with the path it resolves to.
pub fn meant(reading: Reading, sheet: &[u8], scope: &[u8], name: &[u8]) -> Option<u16>
    requires { length sheet.now ≤ 65535 }
    ensures { result ≡ sought_of (meant_in (told_reading reading) (schemas_in sheet.now) scope.now name.now) }
{
    let last = last_schema(reading, sheet, scope);
    meant_in(reading, sheet, scope, last, name)
}

// The same where the last schema of the name is known: if no other schema has the name, what is found there is the first.
#[tactic(auto, using(crate::proofs::Leading::meaning_names))]
pub fn meant_in(
    reading: Reading,
    sheet: &[u8],
    scope: &[u8],
    last: Option<LastSchema>,
    name: &[u8],
) -> Option<u16>
    requires { (length sheet.now ≤ 65535) × LastSchemaOf (told_reading reading) sheet.now scope.now last }
    ensures { result ≡ sought_of (meant_in (told_reading reading) (schemas_in sheet.now) scope.now name.now) }
{
    let LastSchema { numbers, alone } = last?;
    match in_kind(reading, sheet, numbers, ScopeType::Type, name) {
        Ok(number) if alone => Some(number),
        Ok(_) => first_of(reading, sheet, scope, ScopeType::Type, name),
        Err(_) => match in_kind(reading, sheet, numbers, ScopeType::Entity, name) {
            Ok(number) if alone => Some(number),
            Ok(_) => first_of(reading, sheet, scope, ScopeType::Entity, name),
            Err(_) => None,
        },
    }
}
