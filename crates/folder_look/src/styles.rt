//! How the page looks.
ghost use Rattle.std.specs.Prelude.{◌≡◌, ◌++◌, OnOk};
ghost use Rattle.folder_look.specs.Style as spec;

use std::alloc::AllocError;

// Appends the colours, light and dark, and the text.
fn push_colours(out: &mut Vec<u8>) -> Result<(), AllocError>
    ensures { OnOk result (out.new.items ≡ out.old.items ++ spec.colours) }
{
    out.extend_from_slice(
        b":root{color-scheme:light dark;--ink:#1c2024;--soft:#555e68;--paper:#fff;--line:#d5dae0;\
          --good:#1f7a4d;--open:#8a5200;--bad:#b3261e;--tint:#f3f5f7}\n\
          @media(prefers-color-scheme:dark){:root{--ink:#e6e9ec;--soft:#a7b0b9;--paper:#15181b;\
          --line:#363c43;--good:#55c08a;--open:#e0a240;--bad:#f08a82;\
          --tint:#1e2226}}\n\
          *{box-sizing:border-box}\n\
          body{margin:0 auto;max-width:1240px;padding:16px;background:var(--paper);color:\
          var(--ink);font:15px/1.45 system-ui,sans-serif;\
          overflow-wrap:anywhere}\n\
          h1{font-size:28px;margin:4px 0 12px}h2{font-size:20px;border-bottom:\
          2px solid var(--line);margin:36px 0 10px}h3{font-size:15px;margin:16px 0 4px}\n\
          p{margin:2px 0}a{color:inherit}summary{cursor:pointer}:target{outline:\
          2px solid var(--open)}\n\
          .banner{border-left:6px solid var(--bad);background:var(--tint);padding:8px 12px;margin:\
          6px 0;font-weight:600}\n\
          .tally{display:flex;flex-wrap:wrap;gap:8px}.tally span{background:var(--tint);\
          border-radius:6px;padding:6px 14px;color:var(--soft)}\
          .tally b{display:block;color:var(--ink);font-size:22px}\n",
    )
}

// Appends tables, and the attempts in them.
fn push_tables(out: &mut Vec<u8>) -> Result<(), AllocError>
    ensures { OnOk result (out.new.items ≡ out.old.items ++ spec.tables) }
{
    out.extend_from_slice(
        b"table{border-collapse:collapse;width:100%;margin:4px 0 12px}th,td{text-align:left;\
          vertical-align:top;padding:4px 12px 4px 0;\
          border-bottom:1px solid var(--line)}\n\
          thead th{color:var(--soft);font-size:13px;font-weight:600;overflow-wrap:normal}\
          td p{margin:0}.act th{font-weight:600;padding-top:12px;\
          border-bottom:0}\n\
          .act details{font-weight:400;color:var(--soft)}pre{background:var(--tint);color:\
          var(--ink);padding:8px;white-space:pre-wrap;margin:4px 0}\n\
          td.committed,td.whole{color:var(--good)}td.refused,td.open{color:var(--open)}\
          td.withdrawn,td.failed,td.expired,td.spent,td.damaged,td.shut{color:var(--bad);\
          font-weight:600}\n\
          .run th:first-child,.run td:first-child{width:18%}.run td:last-child{width:26%}\
          .run>summary,.more>summary{padding:6px 0;font-weight:600}\n\
          @media(max-width:600px){th,td{padding-right:8px;font-size:13px}}\n",
    )
}

// Appends bars in columns, for histories, attempts and pages.
fn push_bars(out: &mut Vec<u8>) -> Result<(), AllocError>
    ensures { OnOk result (out.new.items ≡ out.old.items ++ spec.bars) }
{
    out.extend_from_slice(
        b".bars{position:relative;display:block;height:24px}.bars i{position:absolute;top:1px;\
          height:22px;left:calc(var(--a,0)*100%/var(--n));\
          width:max(3px,calc(var(--w,1)*100%/var(--n) - 2px));overflow:hidden;white-space:nowrap;\
          text-overflow:ellipsis;\
          font:12px/20px ui-monospace,monospace;padding:0 2px;border-radius:3px;color:var(--ink)}\n\
          .bars i,.key i{font-style:normal}.key{color:var(--soft)}.key i{display:inline-block;\
          width:26px;height:12px;border-radius:3px;margin-left:10px;\
          vertical-align:-1px}\n\
          i.committed{background:var(--good)}.bars i.committed{color:var(--paper)}\
          i.undecided{border:2px dashed var(--open)}\
          i.aborted{border:1px solid var(--bad);text-decoration:line-through}\
          i.unsettled{border:3px dotted var(--open)}\n\
          .bars i.older,.key i.older{background:var(--tint);border:1px solid var(--soft);color:\
          var(--ink)}i.undecided.older{border-style:dashed}\n\
          i.origin{background:var(--soft)}.bars i.origin{top:9px;height:4px}.bars i.floor{width:0;\
          padding:0;border-radius:0}\
          i.floor{border-left:3px dotted var(--soft)}\n\
          .row>summary,.axis,.line{display:grid;grid-template-columns:120px minmax(0,1fr);gap:8px;\
          align-items:center;padding:2px 0;\
          border-bottom:1px solid var(--line)}\n\
          .row>summary b:before{content:\"\\25b8  \"}.row[open]>summary b:before{content:\
          \"\\25be  \"}.row table{margin-left:16px;width:calc(100% - 16px)}\n\
          .axis{position:sticky;top:0;background:var(--paper);z-index:1}.axis i{width:auto;color:\
          var(--soft)}\n\
          i.refused{background:var(--open)}i.withdrawn,i.failed,i.expired,i.spent{background:\
          var(--bad)}i.open{border:2px dotted var(--soft)}\
          .line .bars i.refused{top:12px;height:11px}.line .bars i.withdrawn,.line .bars i.failed,\
          .line .bars i.expired{top:6px;height:12px}\n\
          .strip{height:14px;background:var(--tint);border:1px solid var(--soft);margin-top:2px}\
          .strip i{top:0;height:12px;border-radius:0;padding:0}\
          i.gated{background:var(--good)}i.spoiled{background:var(--open)}i.damaged{background:\
          var(--bad)}\n\
          @media(max-width:600px){.row>summary,.axis,.line{grid-template-columns:72px minmax(0,\
          1fr)}}\n\
          @media print{.axis{position:static}details::details-content{content-visibility:visible}}\n",
    )
}

/// Appends how the page looks.
pub fn push_style(out: &mut Vec<u8>) -> Result<(), AllocError>
    ensures { OnOk result (out.new.items ≡ out.old.items ++ spec.style) }
{
    push_colours(out)?;
    push_tables(out)?;
    push_bars(out)
}
