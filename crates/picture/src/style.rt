//! How the elements look, in a light and in a dark surrounding.

// What a picture of two runs has beside.
pub(crate) const BESIDE_STYLE: &str = concat!(
    "<style type=\"text/css\">",
    // which of the runs
    ".ba{font:italic 105px sans-serif}",
    // a response that changed
    ".ch{fill:#a8007f}",
    // where a run ends
    ".en{stroke:#333;stroke-width:14;fill:none}",
    "@media(prefers-color-scheme:dark){.ch{fill:#ff8ae2}.en{stroke:#d5dae0}}",
    "</style>\n",
);

// The style, the patterns, and the ground.
pub(crate) const STYLE: &str = concat!(
    "<style type=\"text/css\">",
    // words
    "text{font:105px sans-serif;fill:#4a4a4a}",
    // the verdict
    ".t{font:bold 150px sans-serif;fill:#111}",
    // names of rows
    ".n{font:bold 130px monospace;fill:#111}",
    // numbers of threads, behind them
    ".nn{font:110px monospace}",
    // levels
    ".v{font-size:110px;text-anchor:end}",
    // the scale's numbers
    ".s{text-anchor:middle}",
    // names in the lane of the processor
    ".u{font:110px monospace;fill:#111;text-anchor:middle;pointer-events:none}",
    // names of several locks, below a section
    ".m{font:110px monospace;text-anchor:middle;pointer-events:none}",
    // the name of a lock, in a section
    ".k{font:110px monospace;fill:#fff;text-anchor:middle;pointer-events:none;paint-order:stroke;",
    "stroke:#222;stroke-width:28px;stroke-linejoin:round}",
    // the ground
    ".p{fill:#fff}",
    // lines of the scale, and between rows
    ".g{stroke:#e3e3e3;stroke-width:8;fill:none}",
    // the line of a row, and the edge of a band
    ".l{stroke:#9a9a9a;stroke-width:8;fill:none}",
    // the box of a job or a band
    ".w{fill:#eef1f5}",
    // the end of a box that no run comes to, and the lines in it
    ".wt{fill:url(#t);stroke:#b4bcc8;stroke-width:8}",
    ".tt{stroke:#8f9aa9;stroke-width:10;fill:none}",
    // arrivals, and what goes on
    ".a{stroke:#333;stroke-width:12;fill:none}",
    // not ready yet
    ".r{stroke:#777;stroke-width:12;fill:none;stroke-dasharray:30 20}",
    // deadlines
    ".d{stroke:#111;stroke-width:12;fill:#111}",
    // bounds
    ".b{stroke:#a34700;stroke-width:14;fill:none}",
    // the edge of a bar in the lane
    ".o{stroke:#fff;stroke-width:6}",
    // a section, below its stripes
    ".h{fill:#173766}",
    // what is missed: its disc, cross and hatch, and words
    ".x{stroke:#c40000;stroke-width:160;stroke-linecap:round}",
    ".y{stroke:#fff;stroke-width:26;fill:none}",
    ".z{fill:url(#m);stroke:#c40000;stroke-width:14}",
    ".i{stroke:#c40000;stroke-width:22;fill:none}",
    ".q{fill:#c40000;font-weight:bold}",
    ".qn{fill:#c40000}",
    // tasks, by tone
    ".f0{fill:#7fb2e5}",
    ".f1{fill:#f3dd7c}",
    ".f2{fill:#e98b6b}",
    ".f3{fill:#a5e0f2}",
    ".f4{fill:#57b894}",
    ".f5{fill:#f7b3c4}",
    ".f6{fill:#b3b04a}",
    ".f7{fill:#c9c2ea}",
    ".f8{fill:#b98fd0}",
    ".f9{fill:#d3dd8c}",
    // the six colours of locks: the ground of a pattern
    ".c0{fill:#173766}",
    ".c1{fill:#8a2d05}",
    ".c2{fill:#00564b}",
    ".c3{fill:#651a66}",
    ".c4{fill:#4f4200}",
    ".c5{fill:#363636}",
    // locks, by tone: the stripes of a section, plain, or with a pattern
    ".k0{fill:#173766}",
    ".k31{fill:#8a2d05}",
    ".k26{fill:#00564b}",
    ".k21{fill:#651a66}",
    ".k16{fill:#4f4200}",
    ".k11{fill:#363636}",
    ".k1{fill:url(#p1)}",
    ".k2{fill:url(#p2)}",
    ".k3{fill:url(#p3)}",
    ".k4{fill:url(#p4)}",
    ".k5{fill:url(#p5)}",
    ".k6{fill:url(#p6)}",
    ".k7{fill:url(#p7)}",
    ".k8{fill:url(#p8)}",
    ".k9{fill:url(#p9)}",
    ".k10{fill:url(#p10)}",
    ".k12{fill:url(#p12)}",
    ".k13{fill:url(#p13)}",
    ".k14{fill:url(#p14)}",
    ".k15{fill:url(#p15)}",
    ".k17{fill:url(#p17)}",
    ".k18{fill:url(#p18)}",
    ".k19{fill:url(#p19)}",
    ".k20{fill:url(#p20)}",
    ".k22{fill:url(#p22)}",
    ".k23{fill:url(#p23)}",
    ".k24{fill:url(#p24)}",
    ".k25{fill:url(#p25)}",
    ".k27{fill:url(#p27)}",
    ".k28{fill:url(#p28)}",
    ".k29{fill:url(#p29)}",
    ".k30{fill:url(#p30)}",
    ".k32{fill:url(#p32)}",
    ".k33{fill:url(#p33)}",
    ".k34{fill:url(#p34)}",
    ".k35{fill:url(#p35)}",
    ".k0,.k1,.k2,.k3,.k4,.k5,.k6,.k7,.k8,.k9,.k10,.k11,.k12,.k13,.k14,.k15,.k16,.k17,.k18,.k19,.k20,.k21,",
    ".k22,.k23,.k24,.k25,.k26,.k27,.k28,.k29,.k30,.k31,.k32,.k33,.k34,.k35{pointer-events:none}",
    // names of locks, below
    ".c{font:110px monospace}",
    // lines in the patterns of locks
    ".j{stroke:#fff;stroke-opacity:.55;stroke-width:14;fill:none}",
    // waits: for a task above
    ".wa{stroke-width:60;fill:none}",
    // waits: blocked by a task below
    ".wb{stroke-width:60;stroke-linecap:round;stroke-dasharray:0 80;fill:none}",
    // waits: the link to the one below
    ".wj{stroke-width:10;stroke-dasharray:10 22;fill:none;pointer-events:none}",
    // waits: who executes
    ".wl{font:110px monospace;fill:#111;text-anchor:middle;pointer-events:none;",
    "paint-order:stroke;stroke:#fff;stroke-width:30px;stroke-linejoin:round}",
    // waits for a task above, by its tone
    ".i0{stroke:#2f6fae}",
    ".i1{stroke:#96780a}",
    ".i2{stroke:#b04f2c}",
    ".i3{stroke:#1f7f9c}",
    ".i4{stroke:#1e7a58}",
    ".i5{stroke:#b34a68}",
    ".i6{stroke:#6d6b13}",
    ".i7{stroke:#6a5cae}",
    ".i8{stroke:#7d4a9b}",
    ".i9{stroke:#4f8f1f}",
    // waits for several above
    ".ns{stroke:#6b6b6b;shape-rendering:crispEdges}",
    // waits for one below, by the lock's tone
    ".d0,.d6,.d12,.d18,.d24,.d30{stroke:#173766}",
    ".d1,.d7,.d13,.d19,.d25,.d31{stroke:#8a2d05}",
    ".d2,.d8,.d14,.d20,.d26,.d32{stroke:#00564b}",
    ".d3,.d9,.d15,.d21,.d27,.d33{stroke:#651a66}",
    ".d4,.d10,.d16,.d22,.d28,.d34{stroke:#4f4200}",
    ".d5,.d11,.d17,.d23,.d29,.d35{stroke:#363636}",
    // ---- in a dark surrounding
    "@media(prefers-color-scheme:dark){",
    // words
    "text{fill:#b9bec6}",
    // the verdict
    ".t,.n{fill:#f2f4f7}",
    // names in the lane of the processor
    ".u{fill:#fff}",
    // the name of a lock, in a section
    ".k{fill:#101418;stroke:#eee}",
    // the ground
    ".p{fill:#14181d}",
    // lines of the scale, and between rows
    ".g{stroke:#2c333c}",
    // the line of a row, and the edge of a band
    ".l{stroke:#6d7682}",
    // the box of a job or a band
    ".w{fill:#20272f}",
    // the end of a box that no run comes to, and the lines in it
    ".wt{stroke:#4b5663}",
    ".tt{stroke:#6b7788}",
    // arrivals, and what goes on
    ".a{stroke:#d5dae0}",
    // not ready yet
    ".r{stroke:#98a1ac}",
    // deadlines
    ".d{stroke:#f2f4f7;fill:#f2f4f7}",
    // bounds
    ".b{stroke:#ffb066}",
    // the edge of a bar in the lane
    ".o{stroke:#14181d}",
    // a section, below its stripes
    ".h{fill:#dbe9ff}",
    // what is missed: its disc, cross and hatch, and words
    ".x{stroke:#ff5c5c}",
    ".y{stroke:#14181d}",
    ".z{stroke:#ff5c5c}",
    ".i{stroke:#ff5c5c}",
    ".q,.qn{fill:#ff7b7b}",
    // tasks, by tone
    ".f0{fill:#3b6ea3}",
    ".f1{fill:#8f7a1e}",
    ".f2{fill:#a3512f}",
    ".f3{fill:#2f7f98}",
    ".f4{fill:#2a7a5a}",
    ".f5{fill:#a3546c}",
    ".f6{fill:#6b4a33}",
    ".f7{fill:#6f63a8}",
    ".f8{fill:#7b4f94}",
    ".f9{fill:#4a8a35}",
    // the six colours of locks: the ground of a pattern, and plain stripes
    ".c0,.k0{fill:#dbe9ff}",
    ".c1,.k31{fill:#ffc9a8}",
    ".c2,.k26{fill:#a8f0e2}",
    ".c3,.k21{fill:#f2c4f5}",
    ".c4,.k16{fill:#efe3a0}",
    ".c5,.k11{fill:#e6e6e6}",
    // lines in the patterns of locks
    ".j{stroke:#14181d}",
    // waits: who executes
    ".wl{fill:#fff;stroke:#14181d}",
    // waits for a task above, by its tone
    ".i0{stroke:#8fbff0}",
    ".i1{stroke:#e6cf6a}",
    ".i2{stroke:#f2a083}",
    ".i3{stroke:#9bdcf0}",
    ".i4{stroke:#7bd3b1}",
    ".i5{stroke:#f5a8bd}",
    ".i6{stroke:#c9a688}",
    ".i7{stroke:#c3bbef}",
    ".i8{stroke:#d7aeee}",
    ".i9{stroke:#a9e07c}",
    // waits for several above
    ".ns{stroke:#a3abb5}",
    // waits for one below, by the lock's tone
    ".d0,.d6,.d12,.d18,.d24,.d30{stroke:#dbe9ff}",
    ".d1,.d7,.d13,.d19,.d25,.d31{stroke:#ffc9a8}",
    ".d2,.d8,.d14,.d20,.d26,.d32{stroke:#a8f0e2}",
    ".d3,.d9,.d15,.d21,.d27,.d33{stroke:#f2c4f5}",
    ".d4,.d10,.d16,.d22,.d28,.d34{stroke:#efe3a0}",
    ".d5,.d11,.d17,.d23,.d29,.d35{stroke:#e6e6e6}",
    "}",
    "</style>\n",
    // the patterns of locks, by tone, of what is missed, and of what a run lacks
    "<defs>",
    "<pattern id=\"p1\" width=\"60\" height=\"60\" patternUnits=\"userSpaceOnUse\">",
    "<rect class=\"c1\" width=\"60\" height=\"60\"/>",
    "<path class=\"j\" d=\"M-15 15L15-15M0 60L60 0M45 75L75 45\"/></pattern>",
    "<pattern id=\"p2\" width=\"60\" height=\"60\" patternUnits=\"userSpaceOnUse\">",
    "<rect class=\"c2\" width=\"60\" height=\"60\"/>",
    "<path class=\"j\" d=\"M25 0V60M55 0V60\"/></pattern>",
    "<pattern id=\"p3\" width=\"60\" height=\"60\" patternUnits=\"userSpaceOnUse\">",
    "<rect class=\"c3\" width=\"60\" height=\"60\"/>",
    "<path class=\"j\" d=\"M-15 45L15 75M0 0L60 60M45-15L75 15\"/></pattern>",
    "<pattern id=\"p4\" width=\"60\" height=\"60\" patternUnits=\"userSpaceOnUse\">",
    "<rect class=\"c4\" width=\"60\" height=\"60\"/>",
    "<path class=\"j\" d=\"M0 30H60\"/></pattern>",
    "<pattern id=\"p5\" width=\"60\" height=\"60\" patternUnits=\"userSpaceOnUse\">",
    "<rect class=\"c5\" width=\"60\" height=\"60\"/>",
    "<path class=\"j\" d=\"M30 0V60M0 30H60\"/></pattern>",
    "<pattern id=\"p6\" width=\"60\" height=\"60\" patternUnits=\"userSpaceOnUse\">",
    "<rect class=\"c0\" width=\"60\" height=\"60\"/>",
    "<path class=\"j\" d=\"M-15 15L15-15M0 60L60 0M45 75L75 45\"/></pattern>",
    "<pattern id=\"p7\" width=\"60\" height=\"60\" patternUnits=\"userSpaceOnUse\">",
    "<rect class=\"c1\" width=\"60\" height=\"60\"/>",
    "<path class=\"j\" d=\"M25 0V60M55 0V60\"/></pattern>",
    "<pattern id=\"p8\" width=\"60\" height=\"60\" patternUnits=\"userSpaceOnUse\">",
    "<rect class=\"c2\" width=\"60\" height=\"60\"/>",
    "<path class=\"j\" d=\"M-15 45L15 75M0 0L60 60M45-15L75 15\"/></pattern>",
    "<pattern id=\"p9\" width=\"60\" height=\"60\" patternUnits=\"userSpaceOnUse\">",
    "<rect class=\"c3\" width=\"60\" height=\"60\"/>",
    "<path class=\"j\" d=\"M0 30H60\"/></pattern>",
    "<pattern id=\"p10\" width=\"60\" height=\"60\" patternUnits=\"userSpaceOnUse\">",
    "<rect class=\"c4\" width=\"60\" height=\"60\"/>",
    "<path class=\"j\" d=\"M30 0V60M0 30H60\"/></pattern>",
    "<pattern id=\"p12\" width=\"60\" height=\"60\" patternUnits=\"userSpaceOnUse\">",
    "<rect class=\"c0\" width=\"60\" height=\"60\"/>",
    "<path class=\"j\" d=\"M25 0V60M55 0V60\"/></pattern>",
    "<pattern id=\"p13\" width=\"60\" height=\"60\" patternUnits=\"userSpaceOnUse\">",
    "<rect class=\"c1\" width=\"60\" height=\"60\"/>",
    "<path class=\"j\" d=\"M-15 45L15 75M0 0L60 60M45-15L75 15\"/></pattern>",
    "<pattern id=\"p14\" width=\"60\" height=\"60\" patternUnits=\"userSpaceOnUse\">",
    "<rect class=\"c2\" width=\"60\" height=\"60\"/>",
    "<path class=\"j\" d=\"M0 30H60\"/></pattern>",
    "<pattern id=\"p15\" width=\"60\" height=\"60\" patternUnits=\"userSpaceOnUse\">",
    "<rect class=\"c3\" width=\"60\" height=\"60\"/>",
    "<path class=\"j\" d=\"M30 0V60M0 30H60\"/></pattern>",
    "<pattern id=\"p17\" width=\"60\" height=\"60\" patternUnits=\"userSpaceOnUse\">",
    "<rect class=\"c5\" width=\"60\" height=\"60\"/>",
    "<path class=\"j\" d=\"M-15 15L15-15M0 60L60 0M45 75L75 45\"/></pattern>",
    "<pattern id=\"p18\" width=\"60\" height=\"60\" patternUnits=\"userSpaceOnUse\">",
    "<rect class=\"c0\" width=\"60\" height=\"60\"/>",
    "<path class=\"j\" d=\"M-15 45L15 75M0 0L60 60M45-15L75 15\"/></pattern>",
    "<pattern id=\"p19\" width=\"60\" height=\"60\" patternUnits=\"userSpaceOnUse\">",
    "<rect class=\"c1\" width=\"60\" height=\"60\"/>",
    "<path class=\"j\" d=\"M0 30H60\"/></pattern>",
    "<pattern id=\"p20\" width=\"60\" height=\"60\" patternUnits=\"userSpaceOnUse\">",
    "<rect class=\"c2\" width=\"60\" height=\"60\"/>",
    "<path class=\"j\" d=\"M30 0V60M0 30H60\"/></pattern>",
    "<pattern id=\"p22\" width=\"60\" height=\"60\" patternUnits=\"userSpaceOnUse\">",
    "<rect class=\"c4\" width=\"60\" height=\"60\"/>",
    "<path class=\"j\" d=\"M-15 15L15-15M0 60L60 0M45 75L75 45\"/></pattern>",
    "<pattern id=\"p23\" width=\"60\" height=\"60\" patternUnits=\"userSpaceOnUse\">",
    "<rect class=\"c5\" width=\"60\" height=\"60\"/>",
    "<path class=\"j\" d=\"M25 0V60M55 0V60\"/></pattern>",
    "<pattern id=\"p24\" width=\"60\" height=\"60\" patternUnits=\"userSpaceOnUse\">",
    "<rect class=\"c0\" width=\"60\" height=\"60\"/>",
    "<path class=\"j\" d=\"M0 30H60\"/></pattern>",
    "<pattern id=\"p25\" width=\"60\" height=\"60\" patternUnits=\"userSpaceOnUse\">",
    "<rect class=\"c1\" width=\"60\" height=\"60\"/>",
    "<path class=\"j\" d=\"M30 0V60M0 30H60\"/></pattern>",
    "<pattern id=\"p27\" width=\"60\" height=\"60\" patternUnits=\"userSpaceOnUse\">",
    "<rect class=\"c3\" width=\"60\" height=\"60\"/>",
    "<path class=\"j\" d=\"M-15 15L15-15M0 60L60 0M45 75L75 45\"/></pattern>",
    "<pattern id=\"p28\" width=\"60\" height=\"60\" patternUnits=\"userSpaceOnUse\">",
    "<rect class=\"c4\" width=\"60\" height=\"60\"/>",
    "<path class=\"j\" d=\"M25 0V60M55 0V60\"/></pattern>",
    "<pattern id=\"p29\" width=\"60\" height=\"60\" patternUnits=\"userSpaceOnUse\">",
    "<rect class=\"c5\" width=\"60\" height=\"60\"/>",
    "<path class=\"j\" d=\"M-15 45L15 75M0 0L60 60M45-15L75 15\"/></pattern>",
    "<pattern id=\"p30\" width=\"60\" height=\"60\" patternUnits=\"userSpaceOnUse\">",
    "<rect class=\"c0\" width=\"60\" height=\"60\"/>",
    "<path class=\"j\" d=\"M30 0V60M0 30H60\"/></pattern>",
    "<pattern id=\"p32\" width=\"60\" height=\"60\" patternUnits=\"userSpaceOnUse\">",
    "<rect class=\"c2\" width=\"60\" height=\"60\"/>",
    "<path class=\"j\" d=\"M-15 15L15-15M0 60L60 0M45 75L75 45\"/></pattern>",
    "<pattern id=\"p33\" width=\"60\" height=\"60\" patternUnits=\"userSpaceOnUse\">",
    "<rect class=\"c3\" width=\"60\" height=\"60\"/>",
    "<path class=\"j\" d=\"M25 0V60M55 0V60\"/></pattern>",
    "<pattern id=\"p34\" width=\"60\" height=\"60\" patternUnits=\"userSpaceOnUse\">",
    "<rect class=\"c4\" width=\"60\" height=\"60\"/>",
    "<path class=\"j\" d=\"M-15 45L15 75M0 0L60 60M45-15L75 15\"/></pattern>",
    "<pattern id=\"p35\" width=\"60\" height=\"60\" patternUnits=\"userSpaceOnUse\">",
    "<rect class=\"c5\" width=\"60\" height=\"60\"/>",
    "<path class=\"j\" d=\"M0 30H60\"/></pattern>",
    "<pattern id=\"m\" width=\"70\" height=\"70\" patternUnits=\"userSpaceOnUse\">",
    "<path class=\"i\" d=\"M-15 15L15-15M0 70L70 0M55 85L85 55\"/></pattern>",
    "<pattern id=\"t\" width=\"50\" height=\"50\" patternUnits=\"userSpaceOnUse\">",
    "<path class=\"tt\" d=\"M-12 38L12 62M0 0L50 50M38-12L62 12\"/></pattern>",
    "</defs>\n",
    "<rect class=\"p\" width=\"100%\" height=\"100%\"/>\n",
);
