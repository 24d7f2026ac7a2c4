//! Parameters and arguments.
ghost use Rattle.std.specs.Prelude.{◌≡◌};
ghost use Rattle.body_rules.specs.Lists as spec;

use dart_sites::Site;

const MOST: usize = 255;

/// More than 255 parameters or arguments; a default that is no constant.
pub fn listed_at(site: &Site<'_>) -> Option<u32>
    ensures { result ≡ spec.listed_at site.now }
{
    match site {
        Site::ParameterList(span, count) => (*count > MOST).then_some(span.from),
        Site::ArgumentList(span, count) => (*count > MOST).then_some(span.from),
        Site::Default(span, is_constant) => (!*is_constant).then_some(span.from),
        _ => None,
    }
}
