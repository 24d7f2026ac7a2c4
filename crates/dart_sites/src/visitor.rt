//! What is done at each site.
ghost use Rattle.std.specs.Prelude.{◌≡◌, OnOk};
ghost use Rattle.dart_sites.specs.declared.sites.Site.{Site};
ghost use Rattle.dart_sites.specs.declared.surroundings.Surroundings.{Surroundings};

use crate::sites::Site as SiteHere;
use crate::surroundings::Surroundings as SurroundingsHere;
use std::alloc::AllocError;

/// Something that each site of a file is shown to, in the order in which they stand.
pub trait Visitor {
    /// What a site makes of it.
    ghost step: { Self → Surroundings → Site → Self };

    fn visit(
        &mut self,
        surroundings: &SurroundingsHere<'_, '_>,
        site: &SiteHere<'_>,
    ) -> Result<(), AllocError>
        ensures { OnOk result (self.new ≡ step self.old surroundings.now site.now) };
}
