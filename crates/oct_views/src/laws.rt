//! What holds of styles.

ghost use Rattle.oct_plot.specs.Style.{plot_style};
ghost use Rattle.oct_views.specs.StyleLaws.{LoadsNothing};
ghost use Rattle.oct_views.specs.Styles.{html_style};

/// A style ends no tag and loads nothing: it has no `<`, no escape, no string, no `@import` and no `url(`, in letters of either
/// case.
pub fn styles_load_nothing()
    ensures plot { LoadsNothing plot_style }
    ensures html { LoadsNothing html_style }
{}
