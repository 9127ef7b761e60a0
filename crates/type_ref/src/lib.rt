// after espr/src/ir/type_ref.rs of ruststep cd89e5a7cd, Apache-2.0; changed
//
// What a path is: an entity, and whether a supertype; or a type, and what the walk through named types says of it.
#![tactic(auto)]

ghost use Rattle.std.specs.Prelude.{◌≡◌, ◌≤◌, length};
ghost use Rattle.refusal.specs.MeaningAnswer.{done};
ghost use Rattle.grammar.specs.MeaningReading.Reading.{rust};
ghost use Rattle.sheet.specs.Told.{told_reading};
ghost use Rattle.scope.specs.MeaningScope as meaning;
ghost use Rattle.query.specs.MeaningQuery.{path_query};
ghost use Rattle.scope.specs.MirrorScope.{Spans};
ghost use Rattle.declarations.specs.MeaningNamespace.{schemas_in};
ghost use Rattle.type_ref.specs.Promises.{PromiseType};
ghost use Rattle.type_ref.specs.MirrorCode.{NamedAs, TypedAs};

use constraints::is_supertype_in;
use named_types::{is_enumeration, walk};
use query::read_path;
use refusal::{Reason, Refusal};
use resolving::number_for;
use scope::{Path, ScopeType};
use sheet::Reading;

#[derive(Clone, Copy)]
pub struct NamedType {
    pub path: Path,
    pub is_simple: bool,
    pub is_enumerate: bool,
}

#[derive(Clone, Copy)]
pub struct EntityType {
    pub path: Path,
    pub is_supertype: bool,
}

// An enum of its own in place of a Result: document 01 has the refusal as a case beside the two kinds.
#[derive(Clone, Copy)]
pub enum TypeRef {
    Named(NamedType),
    Entity(EntityType),
    Refused(Refusal),
}

// A type that a path leads to.
fn named(reading: Reading, sheet: &[u8], query: &[u8], path: Path) -> TypeRef
    requires { (length sheet.now ≤ 65535) × Spans query.now path.scope.one × Spans query.now path.item }
    ensures { NamedAs (told_reading reading) (schemas_in sheet.now) query.now path result }
{
    let Some(first) = number_for(reading, sheet, query, path) else {
        return TypeRef::Refused(Reason::NoDeclaration.into());
    };
    let number = usize::from(first);
    match walk(reading, sheet, number) {
        Ok(is_simple) => TypeRef::Named(NamedType {
            path,
            is_simple,
            is_enumerate: is_enumeration(sheet, number),
        }),
        Err(why) => TypeRef::Refused(why),
    }
}

// By the kind of the path that is asked for: nothing stands in its way, and it is a supertype or not.
fn typed(reading: Reading, sheet: &[u8], query: &[u8], is_supertype: bool) -> TypeRef
    requires { length sheet.now ≤ 65535 }
    ensures { (p : meaning.Path) → path_query query.now ≡ done p → TypedAs (told_reading reading) (schemas_in sheet.now) query.now is_supertype p result }
{
    let path = match read_path(query) {
        Ok(path) => path,
        Err(why) => return TypeRef::Refused(why),
    };
    match path.item.kind {
        ScopeType::Entity => TypeRef::Entity(EntityType { path, is_supertype }),
        ScopeType::Type => named(reading, sheet, query, path),
        _ => TypeRef::Refused(Reason::NoType.into()),
    }
}

// What the path is: an entity, or a type.
pub fn from_path(sheet: &[u8], query: &[u8], workspace: &mut [u16]) -> TypeRef
    ensures { PromiseType rust sheet.now query.now workspace.old result workspace.new }
{
    from_path_in(Reading::Rust, sheet, query, workspace)
}

// The same in a reading that the caller chooses. What stands in the way of `is_supertype` stands in the way here.
pub fn from_path_in(reading: Reading, sheet: &[u8], query: &[u8], workspace: &mut [u16]) -> TypeRef
    ensures { PromiseType (told_reading reading) sheet.now query.now workspace.old result workspace.new }
{
    match is_supertype_in(reading, sheet, query, workspace) {
        Ok(is_supertype) => typed(reading, sheet, query, is_supertype),
        Err(why) => TypeRef::Refused(why),
    }
}
