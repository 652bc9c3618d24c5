//! How a plot looks: by day and by night.

/// The style of a plot.
pub const PLOT_STYLE: &[u8] =
    b".plot{background:#fff;color:#222;font:18px system-ui,sans-serif}.plot text{fill:currentColor;text-anchor:middle}.plot .title{text-anchor:start}.plot .value{text-anchor:end}.plot path{fill:none;stroke:currentColor}.plot .points{stroke:none;stroke-width:5}.plot .few{stroke-width:10}.plot .dot{fill:#0b5cad}.plot .period{fill:#e0a000;fill-opacity:.3}.plot .again{fill:#e0a000;fill-opacity:.12}.plot .start{stroke:#a86400;stroke-dasharray:6 4}@media(prefers-color-scheme:dark){.plot{background:#14171c;color:#ddd}.plot .dot{fill:#7cc0ff}.plot .start{stroke:#f0b840}}";
