//! The test of places: a map given has n places.
ghost use Rattle.std.specs.Prelude.{◌↔◌, IsTrue};
ghost use Rattle.tables.specs.Tests.{PlacesTest};

/// Whether the map, if one is given, has n places.
pub(crate) fn places_hold(n: u16, given: Option<usize>) -> bool
    ensures { IsTrue result ↔ PlacesTest n given }
{
    given.is_none_or(|places| places == n as usize)
}
