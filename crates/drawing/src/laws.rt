//! A law of the definitions. The function has an empty body: it is its contract.

ghost use Rattle.std.specs.Prelude.{All, List};
ghost use Rattle.plane.specs.Extents.{extent_of};
ghost use Rattle.plane.specs.Rows.{Covers};
ghost use Rattle.drawing.specs.declared.marks.Mark.{Mark};
ghost use Rattle.drawing.specs.Marks.{mark_shape};
ghost use Rattle.drawing.specs.Pictures.{area_of};

/// The map shows every mark: its frame covers that of each.
pub fn map_covers_marks()
    ensures { (marks : List Mark)
        → All (λ mark. Covers (area_of marks) (extent_of (mark_shape mark))) marks }
{}
