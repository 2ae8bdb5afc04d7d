//! What is served on a port: the routes, the guard before them, a page, whether backups are made, and the server's run.

ghost use Rattle.std.specs.Prelude.{◌≡◌, IfOk, is_some, option_map, string_bytes};
ghost use Rattle.shop_request.specs.Guards.{IsGuardOf};

use shop_request::{Address, Guard, Routes};
use std::alloc::{AllocError, Global};

/// What is served on a port: the routes, their guard, a page, which is empty if there is none, and the server's run and
/// version.
#[derive(Drop)]
pub struct Site {
    pub(crate) routes: Routes,
    pub(crate) guard: Guard,
    pub(crate) page: Vec<u8>,
    pub(crate) run: String,
    pub(crate) version: String,
}

impl Site {
    /// Whether only requests under the site's own host names are answered.
    pub fn judges_host(&self) -> bool
        ensures { result ≡ self.now.guard.judges_host }
    {
        self.guard.judges_host()
    }

    ghost use Rattle.shop_serve.specs.Sites.{HasPage};

    /// The site at an address, with a page of these bytes or none, with backups or without, and with the server's run
    /// and version, of letters and digits. The only error is lack of memory.
    pub fn new(
        alloc: Global,
        address: &Address,
        page: Option<Vec<u8>>,
        has_backups: bool,
        run: String,
        version: String,
    ) -> Result<Site, AllocError>
        ensures guard { IfOk result (λ site. IsGuardOf address.now (is_some page) has_backups (string_bytes run) site.guard) }
        ensures page { IfOk result (λ site. HasPage site (option_map (λ p. p.items) page)) }
        ensures run { IfOk result (λ site. site.run ≡ run) }
        ensures version { IfOk result (λ site. site.version ≡ version) }
    {
        let routes = Routes::new(alloc)?;
        match page {
            Some(page) => {
                let guard = Guard::new(alloc, address, true, has_backups, run.as_str())?;
                Ok(Site {
                    routes,
                    guard,
                    page,
                    run,
                    version,
                })
            }
            None => {
                let guard = Guard::new(alloc, address, false, has_backups, run.as_str())?;
                Ok(Site {
                    routes,
                    guard,
                    page: Vec::new(alloc),
                    run,
                    version,
                })
            }
        }
    }
}
