//! Laws of the definitions. A function here has an empty body: it is its contract.

ghost use Rattle.std.specs.Prelude.{◌≡◌, ℕ, suc, ◌≤◌, List, None, length};
ghost use Rattle.features.specs.Rows.{IsSortedById};
ghost use Rattle.features.specs.declared.rows.Feature.{Feature};
ghost use Rattle.map_asks.specs.declared.asks.Layer.{Layer};
ghost use Rattle.map_answers.specs.Rows.{of_layer};
ghost use Rattle.page_laws.specs.Following.{followed};

/// Who begins with the first page and follows its links sees exactly the rows, in order, each once,
/// whatever the limit of a page; and the links end. So it is with the rows of a collection, which
/// rise by id as those of a search do.
pub fn pages_are_rows()
    ensures collection { (layer : Layer) (rows : List Feature) → IsSortedById rows
        → IsSortedById (of_layer layer rows) }
    ensures pages { (rows : List Feature) (limit : ℕ) → IsSortedById rows → 1 ≤ limit
        → followed (suc (length rows)) None limit rows ≡ rows }
{}
