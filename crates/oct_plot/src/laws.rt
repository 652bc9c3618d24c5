//! What holds of plots.

ghost use Rattle.oct_plot.specs.PlotLaws.{DrawnOnce, DrawnWhereAsked, DrawnWhereKnown};

/// A plot has a point exactly where the value of a heap falls that it shows, and each point once. Where it shows the heaps
/// from one to another, these are the known ones between both, and they.
pub fn a_plot_shows_what_is_known()
    ensures known { DrawnWhereKnown }
    ensures asked { DrawnWhereAsked }
    ensures once { DrawnOnce }
{}
