//! How the elements of a way look.

pub(crate) const STYLE: &str = concat!(
    "<style type=\"text/css\">",
    // the way of what stands longest
    ".ya{stroke:#b0005e;stroke-width:28;fill:none;stroke-linejoin:round}",
    // that of what comes next
    ".yb{stroke:#00608f;stroke-width:20;fill:none;stroke-linejoin:round}",
    // where it waits, where a job begins, and where it stands
    ".yw{stroke-dasharray:1 50;stroke-linecap:round}",
    ".yd{stroke-width:90;stroke-linecap:round}",
    ".ys{stroke-width:14}",
    // how old it gets
    ".yt{font-weight:bold;fill:#b0005e;text-anchor:middle;pointer-events:none;",
    "paint-order:stroke;stroke:#fff;stroke-width:30px;stroke-linejoin:round}",
    "@media(prefers-color-scheme:dark){",
    ".ya{stroke:#ff7ac0}",
    ".yb{stroke:#7fd0ff}",
    ".yt{fill:#ff7ac0;stroke:#14181d}",
    "}",
    "</style>\n",
);
