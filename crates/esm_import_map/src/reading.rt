// Reads the text of an import map.
ghost use Rattle.std.specs.Prelude.{◌≡◌, [], Some, None, IfOk, option_map, string_bytes, if◌then◌else◌};
ghost use Rattle.serde_json.specs.Find.{as_object};
ghost use Rattle.serde_json.specs.View.{view, members_view};
ghost use Rattle.esm_import_map.specs.Reading as spec;
ghost use Rattle.esm_base.specs.Ends.{Gives};
ghost use Rattle.esm_base.specs.Urls.{url_of};

use crate::address::Address;
use crate::fault::{MapFault, MapReadEnd};
use crate::import_map::{ImportMap, SpecifierMap};
use crate::specifier::{ends_in_slash, url_like};
use esm_base::{MAX_FILE_BYTES, Memory, TextMap, parse_against, without_mark};
use serde_json::{Category, Map, Value};
use std::alloc::Global;
use url::Url;

// The JSON value that a text is, if it is one.
fn json_of(alloc: Global, bytes: &[u8]) -> Result<Option<Value>, Memory>
    ensures { IfOk result (λ value. option_map view value ≡ spec.json_of bytes.now) }
{
    if bytes.len() > MAX_FILE_BYTES {
        return Ok(None);
    }
    match Value::from_slice(alloc, without_mark(bytes)) {
        Ok(value) => Ok(Some(value)),
        Err(error) => match error.classify() {
            Category::Memory => Err(Memory),
            _ => Ok(None),
        },
    }
}

// The key under which an entry is kept, if it is.
fn normalized_key(alloc: Global, base: &Url, key: &str) -> Result<Option<String>, Memory>
    ensures { IfOk result (λ kept.
        option_map string_bytes kept ≡ spec.normalized_key base.now key.now) }
{
    if key.is_empty() {
        return Ok(None);
    }
    match url_like(alloc, base, key)? {
        Some(url) => Ok(Some(String::from_str(alloc, url.as_str())?)),
        None => Ok(Some(String::from_str(alloc, key)?)),
    }
}

// The address that a value names, if it names one.
fn address_of(
    alloc: Global,
    base: &Url,
    key: &str,
    value: &Value,
) -> Result<Option<Address>, Memory>
    ensures { IfOk result (λ address. address ≡ spec.address_of base.now key.now (view value.now)) }
{
    let Some(text) = value.as_str() else {
        return Ok(None);
    };
    let Some(url) = url_like(alloc, base, text)? else {
        return Ok(None);
    };
    if ends_in_slash(key) && !ends_in_slash(url.as_str()) {
        return Ok(None);
    }
    Ok(Some(Address::new(alloc, url)?))
}

// Puts an entry in, if its key is kept. `false` where the map has the key already.
fn enter(
    alloc: Global,
    base: &Url,
    key: &str,
    value: &Value,
    map: &mut SpecifierMap,
) -> Result<bool, Memory>
    ensures { let kept = spec.normalized_key base.now key.now in
        let address = spec.address_of base.now key.now (view value.now) in
        IfOk result (λ fresh.
        spec.with_entry kept address map.old ≡ (if fresh then Some map.new else None)) }
{
    let Some(kept) = normalized_key(alloc, base, key)? else {
        return Ok(true);
    };
    let address = address_of(alloc, base, key, value)?;
    map.insert_new(kept, address)
}

// The specifier map that an object says, unless two of its keys are one text.
fn read_specifiers(
    alloc: Global,
    base: &Url,
    members: &Map<String, Value>,
) -> Result<Option<SpecifierMap>, Memory>
    ensures { IfOk result (λ map.
        map ≡ spec.normalized base.now (members_view members.now.entries) []) }
{
    let mut map = TextMap::empty(alloc);
    for (key, value) in members.iter() {
        if !enter(alloc, base, key.as_str(), value, &mut map)? {
            return Ok(None);
        }
    }
    Ok(Some(map))
}

// The specifier map of a scope.
fn read_scope(alloc: Global, base: &Url, value: &Value) -> Result<Option<SpecifierMap>, Memory>
    ensures { IfOk result (λ map.
        map ≡ spec.normalized base.now (spec.members_in (view value.now)) []) }
{
    match value.as_object() {
        Some(members) => read_specifiers(alloc, base, members),
        None => Ok(Some(TextMap::empty(alloc))),
    }
}

// Puts a scope in, if its prefix is a URL. `false` where two of its keys are one text, or the prefix is there already.
fn enter_scope(
    alloc: Global,
    base: &Url,
    prefix: &str,
    value: &Value,
    scopes: &mut TextMap<SpecifierMap>,
) -> Result<bool, Memory>
    ensures { let map = spec.normalized base.now (spec.members_in (view value.now)) [] in
        IfOk result (λ fresh.
        spec.with_scope (url_of (Some base.now) prefix.now) map scopes.old
        ≡ (if fresh then Some scopes.new else None)) }
{
    let Some(url) = parse_against(base, prefix)? else {
        return Ok(true);
    };
    let Some(map) = read_scope(alloc, base, value)? else {
        return Ok(false);
    };
    let kept = String::from_str(alloc, url.as_str())?;
    scopes.insert_new(kept, map)
}

// The scopes that an object says, unless two of their prefixes, or two keys of one scope, are one text. The object
// goes as they are read.
fn read_scopes(
    alloc: Global,
    base: &Url,
    members: Map<String, Value>,
) -> Result<Option<TextMap<SpecifierMap>>, Memory>
    ensures { IfOk result (λ scopes.
        scopes ≡ spec.normalized_scopes base.now (members_view members.entries) []) }
{
    let mut scopes = TextMap::empty(alloc);
    for (prefix, value) in members {
        if !enter_scope(alloc, base, prefix.as_str(), &value, &mut scopes)? {
            return Ok(None);
        }
    }
    Ok(Some(scopes))
}

// Whether each member is an object.
fn are_objects(members: &Map<String, Value>) -> bool
    ensures { result ≡ spec.are_objects (members_view members.now.entries) }
{
    for (_, value) in members.iter() {
        if !value.is_object() {
            return false;
        }
    }
    true
}

// The object that a value is, if it is one.
fn object_of(value: Value) -> Option<Map<String, Value>>
    ensures { option_map (λ m. members_view m.entries) result ≡ as_object (view value) }
{
    match value {
        Value::Object(members) => Some(members),
        _ => None,
    }
}

// The object that a part of the map is: the empty one where the part isn't there.
fn part_of(alloc: Global, part: Option<Value>) -> Option<Map<String, Value>>
    ensures { option_map (λ m. members_view m.entries) result
        ≡ spec.part_of (option_map view part) }
{
    match part {
        Some(value) => object_of(value),
        None => Some(Map::new(alloc)),
    }
}

// Reads the two parts of a map.
fn read_parts(
    alloc: Global,
    base: &Url,
    imports: Option<Value>,
    scopes: Option<Value>,
) -> Result<ImportMap, MapReadEnd>
    ensures { Gives result (spec.of_parts base.now
        (spec.part_of (option_map view imports))
        (spec.part_of (option_map view scopes))) }
{
    let Some(imports) = part_of(alloc, imports) else {
        return Err(MapReadEnd::Fault(MapFault::M3));
    };
    let Some(scopes) = part_of(alloc, scopes) else {
        return Err(MapReadEnd::Fault(MapFault::M3));
    };
    if !are_objects(&scopes) {
        return Err(MapReadEnd::Fault(MapFault::M3));
    }
    let Some(imports) = read_specifiers(alloc, base, &imports)? else {
        return Err(MapReadEnd::Fault(MapFault::M4));
    };
    let Some(scopes) = read_scopes(alloc, base, scopes)? else {
        return Err(MapReadEnd::Fault(MapFault::M4));
    };
    Ok(ImportMap::of(imports, scopes))
}

/// Reads the text of an import map.
pub fn read_text(alloc: Global, bytes: &[u8], base: &Url) -> Result<ImportMap, MapReadEnd>
    ensures { Gives result (spec.import_map_of bytes.now base.now) }
{
    let Some(value) = json_of(alloc, bytes)? else {
        return Err(MapReadEnd::Fault(MapFault::M1));
    };
    let Some(mut members) = object_of(value) else {
        return Err(MapReadEnd::Fault(MapFault::M2));
    };
    let imports = members.remove("imports");
    let scopes = members.remove("scopes");
    read_parts(alloc, base, imports, scopes)
}
