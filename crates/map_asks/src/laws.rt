//! Laws of the definitions. A function here has an empty body: it is its contract.

ghost use Rattle.std.specs.Prelude.{◌≡◌, None, Some, false, true};
ghost use Rattle.map_asks.specs.Windows.{box_corners, clipped, is_crossed, window_of};
ghost use Rattle.map_asks.specs.declared.windows.Bounds.{Bounds};
ghost use Rattle.map_asks.specs.declared.windows.Window.TheVariants.{Nothing, Shape};

/// Bounds of which one is behind the opposite one have no window. All others have one: what of their
/// box lies on the grid, with just the box's corners, or nothing.
pub fn window_is_box()
    ensures none { (bounds : Bounds) → is_crossed bounds ≡ true → window_of bounds ≡ None }
    ensures nothing { (bounds : Bounds) → is_crossed bounds ≡ false
        → is_crossed (clipped bounds) ≡ true → window_of bounds ≡ Some Nothing }
    ensures shape { (bounds : Bounds) → is_crossed bounds ≡ false
        → is_crossed (clipped bounds) ≡ false
        → window_of bounds ≡ Some (Shape (box_corners (clipped bounds))) }
{}
