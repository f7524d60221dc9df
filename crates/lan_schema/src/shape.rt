ghost use Rattle.std.specs.Prelude.{◌≡◌};
ghost use Rattle.lan_schema.specs.Shapes.{shape_of, takes};

/// What kind of fields a field has in it, by its logical type.
#[derive(Clone, Copy, Debug, PartialEq, Eq)]
pub enum Shape {
    /// At least one, its members.
    Struct,
    /// One, its item.
    List,
    /// None.
    Leaf,
}

#[tactic(auto, unfolding(crate::specs::Shapes::shape_of))]
pub fn shape_of(logical: &str) -> Shape
    ensures { result ≡ shape_of logical.now }
{
    if logical == "struct" {
        return Shape::Struct;
    }
    if logical == "list" || logical == "list.struct" {
        return Shape::List;
    }
    Shape::Leaf
}

impl Shape {
    /// Whether so many fields may lie in a field of this shape.
    pub fn takes(self, count: usize) -> bool
        ensures { result ≡ takes self count }
    {
        match self {
            Shape::Struct => count > 0,
            Shape::List => count == 1,
            Shape::Leaf => count == 0,
        }
    }
}
