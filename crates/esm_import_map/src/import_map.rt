// Import maps.
ghost use Rattle.std.specs.Prelude.{◌≡◌};
ghost use Rattle.esm_import_map.specs.ImportMap.{no_maps};
ghost use Rattle.esm_base.specs.Ends.{Gives};
ghost use Rattle.esm_import_map.specs.Reading.{import_map_of};

use crate::address::Address;
use crate::fault::MapReadEnd;
use crate::reading::read_text;
use esm_base::TextMap;
use std::alloc::Global;
use std::marker::Model;
use url::Url;

/// From each key to its address, or to none: HTML's module specifier map.
pub type SpecifierMap = TextMap<Option<Address>>;

/// An import map. Contracts see its two finite maps.
#[derive(Drop)]
pub struct ImportMap {
    imports: SpecifierMap,
    scopes: TextMap<SpecifierMap>,
}

impl Model for ImportMap {
    ghost use Rattle.esm_import_map.specs.ImportMap.{Maps, maps_code};

    ghost Value = { Maps };

    ghost coded = { maps_code };

    ghost view = { λ m. record { imports = m.imports; scopes = m.scopes } };
}

impl ImportMap {
    /// The map that maps nothing. It doesn't allocate.
    pub fn empty(alloc: Global) -> ImportMap
        ensures { result ≡ no_maps }
    {
        ImportMap {
            imports: TextMap::empty(alloc),
            scopes: TextMap::empty(alloc),
        }
    }

    // The import map of these two maps.
    pub(crate) fn of(imports: SpecifierMap, scopes: TextMap<SpecifierMap>) -> ImportMap
        ensures { result ≡ record { imports = imports; scopes = scopes } }
    {
        ImportMap { imports, scopes }
    }

    /// Reads the text of an import map against the URL of the document that it stands in. It is refused with the
    /// first of M1 to M4 that applies, exactly where `import_map_of` says so: M1 is also for more than 1,048,576 bytes.
    ///
    /// HTML, parse an import map string.
    pub fn read(alloc: Global, bytes: &[u8], base: &Url) -> Result<ImportMap, MapReadEnd>
        ensures { Gives result (import_map_of bytes.now base.now) }
    {
        read_text(alloc, bytes, base)
    }

    /// The specifiers mapped everywhere.
    pub fn imports(&self) -> &SpecifierMap
        ensures { result.now ≡ self.now.imports }
    {
        &self.imports
    }

    /// The specifiers mapped within a scope, by the scope's prefix.
    pub fn scopes(&self) -> &TextMap<SpecifierMap>
        ensures { result.now ≡ self.now.scopes }
    {
        &self.scopes
    }
}
