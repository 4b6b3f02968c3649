//! The named formats are those of IEEE P3109. So one with another constant would not be proved.

ghost use Rattle.p3109_formats.specs.Published.{IsPublishedProjection, binary8p1uf, binary8p3se, binary8p4se};
ghost use Rattle.p3109_formats.specs.{Published.binary8p5se, Types.projection_of};

/// `Binary8P3` and so on are the formats of these names in IEEE P3109.
pub fn projections_are_those_of_p3109()
    ensures p3 { IsPublishedProjection binary8p3se
        (projection_of ⟦<crate::Binary8P3 as crate::Projection>⟧) }
    ensures p4 { IsPublishedProjection binary8p4se
        (projection_of ⟦<crate::Binary8P4 as crate::Projection>⟧) }
    ensures p5 { IsPublishedProjection binary8p5se
        (projection_of ⟦<crate::Binary8P5 as crate::Projection>⟧) }
    ensures p1 { IsPublishedProjection binary8p1uf
        (projection_of ⟦<crate::Binary8P1UF as crate::Projection>⟧) }
{}
