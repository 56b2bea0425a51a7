//! How the pages look.

/// The style sheet of all pages.
pub const STYLE: &str =
    "body { margin: 1em auto; max-width: 75em; padding: 0 1em; font-family: sans-serif; line-height: 1.5; overflow-wrap: anywhere; }
nav ul { display: flex; flex-wrap: wrap; gap: 0.5em 1.5em; padding: 0; list-style: none; }
td ul { margin: 0; padding-left: 1.2em; }
table { margin: 1.5em 0; border-collapse: collapse; }
caption { padding: 0.3em 0; font-weight: bold; text-align: left; }
th, td { padding: 0.3em 0.8em 0.3em 0; border-bottom: 1px solid #767676; text-align: left; vertical-align: top; }
tbody th { font-weight: normal; }
.amount { text-align: right; font-variant-numeric: tabular-nums; }
thead th, .amount, .amount + td, .time, button { overflow-wrap: normal; }
label { display: inline-block; min-width: 6em; }
input, select, button { box-sizing: border-box; max-width: 100%; padding: 0.4em; font: inherit; }
svg { width: 100%; height: auto; border: 1px solid #767676; }
svg text { font-size: 12px; }
svg text.hour { text-anchor: middle; }
line.hour { stroke: #c8c8c8; }
line.join { stroke: #00437c; stroke-width: 2; }
rect.paid { fill: #00437c; stroke: #00437c; stroke-width: 2; }
rect.free { fill: #fff; stroke: #00437c; stroke-width: 2; }
path.lone { fill: #a3260f; }
";
