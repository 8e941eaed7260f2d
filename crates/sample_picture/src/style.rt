//! The style sheet of the picture, for a light and a dark page.

/// The style sheet, whose classes are those of the picture alone.
pub const STYLE: &str = "<style>
.daq text{font:12px system-ui,sans-serif;fill:#1f2328}
.daq .h{font-size:15px;font-weight:600}
.daq .m{font-size:11px;fill:#59636e}
.daq .n{font-weight:600}
.daq .e{text-anchor:end}
.daq .c{text-anchor:middle}
.daq .r{font-size:11px;fill:#b3151f}
.daq .k{fill:#fff;stroke:#d1d9e0}
.daq .g{stroke:#d1d9e0;fill:none}
.daq .b{stroke:#818b98;fill:none}
.daq .l{stroke:#d1242f;stroke-opacity:.28;stroke-width:20;fill:none}
.daq .s{stroke:#2f78d0;stroke-width:20;fill:none}
.daq .o{stroke:#d1242f;stroke-width:28;fill:none}
.daq .t{fill:#d1242f}
@media(prefers-color-scheme:dark){
.daq text{fill:#f0f6fc}
.daq .m{fill:#9198a1}
.daq .r{fill:#ff8b85}
.daq .k{fill:#0d1117;stroke:#3d444d}
.daq .g{stroke:#2f363e}
.daq .b{stroke:#818b98}
.daq .l{stroke:#ff5c57;stroke-opacity:.4}
.daq .s{stroke:#58a6ff}
.daq .o{stroke:#ff5c57}
.daq .t{fill:#ff5c57}
}
</style>
";
