// Which key of which map decides.
ghost use Rattle.std.specs.Prelude.{◌≡◌, None, MatchOption, true, false, is_some};
ghost use Rattle.esm_base.specs.TextMap.{at};
ghost use Rattle.esm_specifier.specs.Inner.Lookups.{Decides, IsInScope};
ghost use Rattle.esm_specifier.specs.Resolution.{deciding_key, deciding_scope, deciding_map, scope_at};

use esm_base::TextMap;
use esm_import_map::{Address, ImportMap, SpecifierMap};

/// A key that decides: so many bytes of the normal text, and the address to which it leads.
#[derive(Drop)]
pub struct Found<'a> {
    /// How many bytes of the normal text the key has: so many from its front on.
    pub key_len: usize,
    /// The address to which the key leads; none for the null entry.
    pub address: &'a Option<Address>,
}

// The longest prefix of the normal text that ends in `/` and is a key.
fn find_prefix<'a>(map: &'a SpecifierMap, normal: &str) -> Option<Found<'a>>
    requires { is_some (at normal.now map.now) ≡ false }
    ensures { MatchOption result (deciding_key true normal.now map.now ≡ None)
        (λ f. Decides true normal.now map.now f.key_len f.address.now) }
{
    let bytes = normal.as_bytes();
    for place in (0..bytes.len()).rev() {
        if bytes[place] == b'/' {
            let (key, _) = normal.split_at(place + 1);
            if let Some(address) = map.get(key) {
                return Some(Found {
                    key_len: place + 1,
                    address,
                });
            }
        }
    }
    None
}

// The key that decides in one map: the normal text itself, else its longest prefix that is a key.
fn find_key<'a>(map: &'a SpecifierMap, prefixes: bool, normal: &str) -> Option<Found<'a>>
    ensures { MatchOption result (deciding_key prefixes normal.now map.now ≡ None)
        (λ f. Decides prefixes normal.now map.now f.key_len f.address.now) }
{
    if let Some(address) = map.get(normal) {
        return Some(Found {
            key_len: normal.len(),
            address,
        });
    }
    if prefixes {
        find_prefix(map, normal)
    } else {
        None
    }
}

// The key that decides in the map of one scope.
fn find_in_scope<'a>(
    scopes: &'a TextMap<SpecifierMap>,
    prefix: &str,
    prefixes: bool,
    normal: &str,
) -> Option<Found<'a>>
    ensures { let map = scope_at prefix.now scopes.now in
        MatchOption result (deciding_key prefixes normal.now map ≡ None)
        (λ f. Decides prefixes normal.now map f.key_len f.address.now) }
{
    match scopes.get(prefix) {
        Some(map) => find_key(map, prefixes, normal),
        None => None,
    }
}

// The same in the scope of the longest prefix of the referrer, of those that end in `/` and in which a key matches.
fn find_scope_prefix<'a>(
    scopes: &'a TextMap<SpecifierMap>,
    referrer: &str,
    prefixes: bool,
    normal: &str,
) -> Option<Found<'a>>
    requires { deciding_key prefixes normal.now (scope_at referrer.now scopes.now) ≡ None }
    ensures { MatchOption result (deciding_scope referrer.now prefixes normal.now scopes.now ≡ None)
        (λ f. IsInScope referrer.now prefixes normal.now scopes.now f.key_len f.address.now) }
{
    let bytes = referrer.as_bytes();
    for end in (0..bytes.len()).rev() {
        if bytes[end] == b'/' {
            let (prefix, _) = referrer.split_at(end + 1);
            if let Some(found) = find_in_scope(scopes, prefix, prefixes, normal) {
                return Some(found);
            }
        }
    }
    None
}

// The same in the scope that decides: that of the referrer itself, else of its longest prefix.
fn find_scope<'a>(
    scopes: &'a TextMap<SpecifierMap>,
    referrer: &str,
    prefixes: bool,
    normal: &str,
) -> Option<Found<'a>>
    ensures { MatchOption result (deciding_scope referrer.now prefixes normal.now scopes.now ≡ None)
        (λ f. IsInScope referrer.now prefixes normal.now scopes.now f.key_len f.address.now) }
{
    match find_in_scope(scopes, referrer, prefixes, normal) {
        Some(found) => Some(found),
        None => find_scope_prefix(scopes, referrer, prefixes, normal),
    }
}

/// The key that decides: in the scopes, else in the imports.
pub fn find<'a>(
    map: &'a ImportMap,
    referrer: &str,
    prefixes: bool,
    normal: &str,
) -> Option<Found<'a>>
    ensures { let deciding = deciding_map referrer.now prefixes normal.now map.now in
        MatchOption result (deciding_key prefixes normal.now deciding ≡ None)
        (λ f. Decides prefixes normal.now deciding f.key_len f.address.now) }
{
    match find_scope(map.scopes(), referrer, prefixes, normal) {
        Some(found) => Some(found),
        None => find_key(map.imports(), prefixes, normal),
    }
}
