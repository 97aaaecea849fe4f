// Addresses of import maps.
ghost use Rattle.std.specs.Prelude.{◌≡◌, IfOk};

use esm_base::Memory;
use std::alloc::Global;
use std::marker::Model;
use url::Url;

/// The URL to which a key leads. It lies in memory of its own: a map makes room for several entries at once, so each
/// must be small. Contracts see the URL.
#[derive(Drop)]
pub struct Address {
    url: Box<Url>,
}

impl Model for Address {
    ghost use Rattle.url.specs.Parts.{Parts, parts_code};

    ghost Value = { Parts };

    ghost coded = { parts_code };

    ghost view = { λ a. a.url.value };
}

impl Address {
    /// The address that is this URL.
    pub fn new(alloc: Global, url: Url) -> Result<Address, Memory>
        ensures { IfOk result (λ address. address ≡ url) }
    {
        let url = Box::new(alloc, url)?;
        Ok(Address { url })
    }

    /// The URL.
    pub fn url(&self) -> &Url
        ensures { result.now ≡ self.now }
    {
        &self.url
    }
}
