//! Laws over the definitions, as contracts of functions that do nothing.
ghost use Rattle.std.specs.Prelude.{◌≡◌, ◌+◌, List, [], ◌∷◌, ◌++◌, max};
ghost use Rattle.yxml.specs.declared.tree.Tree.{Tree};
ghost use Rattle.yxml.specs.Bodies.{AreBalanced, body_of};
ghost use Rattle.yxml.specs.Marks.{Mark, marks};
ghost use Rattle.yxml.specs.Normal.{height};

/// Bodies that have the same marks are the same body, which its marks make; and balanced marks are
/// those of the body that they make.
pub fn marks_tell_the_body()
    ensures one { (one other : List Tree) → marks one ≡ marks other → one ≡ other }
    ensures made { (body : List Tree) → body_of (marks body) ≡ body }
    ensures balanced { (ms : List Mark) → AreBalanced ms → marks (body_of ms) ≡ ms }
{}

/// The marks of two bodies, one after the other, are those of each.
pub fn marks_of_joined_bodies()
    ensures marks { (one other : List Tree) → marks (one ++ other) ≡ marks one ++ marks other }
    ensures height { (one other : List Tree)
        → height (one ++ other) ≡ max (height one) (height other) }
{}
