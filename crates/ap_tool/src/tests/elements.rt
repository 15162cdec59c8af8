//! Rows in which every element and every attribute of rule files occurs: `bench/elements` lists
//! those that don't.
use crate::tests::rows::{NONE, Row, bad_rules, case_over, check_rows, done_over};
use std::test::Fail;

/// Each condition, on the lemma of a noun: it adds its letter to a variable, small where it holds
/// and capital where it doesn't.
const CONDITIONS: &str = r#"<transfer default="lu" c="a comment">
<section-def-cats><def-cat n="nom"><cat-item tags="n.*"/></def-cat></section-def-cats>
<section-def-vars><def-var n="v"/></section-def-vars>
<section-def-lists><def-list n="l">
<list-item v="do"/><list-item v="und"/><list-item v="dog"/><list-item v="HOUND"/>
</def-list></section-def-lists>
<section-rules><rule comment="a noun">
<pattern><pattern-item n="nom"/></pattern>
<action>
<let><var n="v"/><lit v=""/></let>
<choose><when><test><equal><clip pos="1" side="sl" part="lem"/><lit v="dog"/></equal></test>
<append n="v"><lit v="a"/></append></when>
<otherwise><append n="v"><lit v="A"/></append></otherwise></choose>
<choose><when><test><begins-with><clip pos="1" side="sl" part="lem"/><lit v="d"/></begins-with></test>
<append n="v"><lit v="b"/></append></when>
<otherwise><append n="v"><lit v="B"/></append></otherwise></choose>
<choose><when><test><ends-with><clip pos="1" side="sl" part="lem"/><lit v="g"/></ends-with></test>
<append n="v"><lit v="c"/></append></when>
<otherwise><append n="v"><lit v="C"/></append></otherwise></choose>
<choose><when><test><contains-substring><clip pos="1" side="sl" part="lem"/><lit v="o"/></contains-substring></test>
<append n="v"><lit v="d"/></append></when>
<otherwise><append n="v"><lit v="D"/></append></otherwise></choose>
<choose><when><test><in><clip pos="1" side="sl" part="lem"/><list n="l"/></in></test>
<append n="v"><lit v="e"/></append></when>
<otherwise><append n="v"><lit v="E"/></append></otherwise></choose>
<choose><when><test><begins-with-list><clip pos="1" side="sl" part="lem"/><list n="l"/></begins-with-list></test>
<append n="v"><lit v="f"/></append></when>
<otherwise><append n="v"><lit v="F"/></append></otherwise></choose>
<choose><when><test><ends-with-list><clip pos="1" side="sl" part="lem"/><list n="l"/></ends-with-list></test>
<append n="v"><lit v="g"/></append></when>
<otherwise><append n="v"><lit v="G"/></append></otherwise></choose>
<choose><when><test><and>
<equal><clip pos="1" side="sl" part="lem"/><lit v="dog"/></equal>
<begins-with><clip pos="1" side="sl" part="lem"/><lit v="c"/></begins-with></and></test>
<append n="v"><lit v="h"/></append></when>
<otherwise><append n="v"><lit v="H"/></append></otherwise></choose>
<choose><when><test><or>
<equal><clip pos="1" side="sl" part="lem"/><lit v="cat"/></equal>
<ends-with><clip pos="1" side="sl" part="lem"/><lit v="g"/></ends-with></or></test>
<append n="v"><lit v="i"/></append></when>
<otherwise><append n="v"><lit v="I"/></append></otherwise></choose>
<choose><when><test><not>
<equal><clip pos="1" side="sl" part="lem"/><lit v="dog"/></equal></not></test>
<append n="v"><lit v="j"/></append></when>
<otherwise><append n="v"><lit v="J"/></append></otherwise></choose>
<choose><when><test><equal caseless="yes"><clip pos="1" side="sl" part="lem"/><lit v="hOUND"/></equal></test>
<append n="v"><lit v="k"/></append></when>
<otherwise><append n="v"><lit v="K"/></append></otherwise></choose>
<choose><when><test><in caseless="yes"><clip pos="1" side="sl" part="lem"/><list n="l"/></in></test>
<append n="v"><lit v="l"/></append></when>
<otherwise><append n="v"><lit v="L"/></append></otherwise></choose>
<choose><when><test><begins-with-list caseless="no"><clip pos="1" side="sl" part="lem"/><list n="l"/></begins-with-list></test>
<append n="v"><lit v="m"/></append></when>
<when><test><ends-with caseless="yes"><clip pos="1" side="sl" part="lem"/><lit v="UND"/></ends-with></test>
<append n="v"><lit v="n"/></append></when></choose>
<choose><when><test><begins-with caseless="yes"><clip pos="1" side="sl" part="lem"/><lit v="HO"/></begins-with></test>
<append n="v"><lit v="o"/></append></when>
<otherwise><append n="v"><lit v="O"/></append></otherwise></choose>
<choose><when><test><contains-substring caseless="yes"><clip pos="1" side="sl" part="lem"/><lit v="OUN"/></contains-substring></test>
<append n="v"><lit v="p"/></append></when>
<otherwise><append n="v"><lit v="P"/></append></otherwise></choose>
<choose><when><test><ends-with-list caseless="yes"><clip pos="1" side="sl" part="lem"/><list n="l"/></ends-with-list></test>
<append n="v"><lit v="q"/></append></when>
<otherwise><append n="v"><lit v="Q"/></append></otherwise></choose>
<out><lu><var n="v"/><lit-tag v="n.x"/></lu></out>
</action>
</rule></section-rules>
</transfer>
"#;

/// Each value: the second of two rules is for a word with a queue of its own.
const VALUES: &str = r#"<transfer>
<section-def-cats><def-cat n="nom"><cat-item tags="n.*"/></def-cat>
<def-cat n="verb"><cat-item tags="vblex"/></def-cat></section-def-cats>
<section-rules>
<rule><pattern><pattern-item n="nom"/></pattern>
<action><out><lu>
<concat><clip pos="1" side="tl" part="lemh"/><b/><case-of pos="1" side="sl" part="lem"/></concat>
<clip pos="1" side="tl" part="tags" queue="no"/><clip pos="1" side="tl" part="whole" link-to="7"/>
</lu></out></action></rule>
<rule><pattern><pattern-item n="verb"/></pattern>
<action><out><lu>
<get-case-from pos="1"><lit v="go"/></get-case-from><clip pos="1" side="sl" part="lemq"/>
<clip pos="1" side="sl" part="lemh"/><lit-tag v="vblex"/>
</lu></out></action></rule>
</section-rules>
</transfer>
"#;

/// What statements change, a unit of several, and a macro.
const STATEMENTS: &str = r#"<transfer default="lu">
<section-def-cats><def-cat n="adj"><cat-item tags="adj"/></def-cat>
<def-cat n="nom"><cat-item tags="n.*"/></def-cat></section-def-cats>
<section-def-attrs>
<def-attr n="num"><attr-item tags="sg"/><attr-item tags="pl"/></def-attr>
</section-def-attrs>
<section-def-vars><def-var n="v"/><def-var n="w" v="uno"/></section-def-vars>
<section-def-macros><def-macro n="turned" npar="2">
<out><mlu><lu><clip pos="1" side="tl" part="lem"/></lu><lu></lu>
<lu><clip pos="2" side="tl" part="lem"/><lit-tag v="adj"/></lu></mlu></out>
</def-macro></section-def-macros>
<section-rules>
<rule><pattern><pattern-item n="nom"/></pattern>
<action>
<let><clip pos="1" side="tl" part="num"/><lit-tag v="pl"/></let>
<modify-case><clip pos="1" side="tl" part="lem"/><lit v="AA"/></modify-case>
<let><var n="v"/><clip pos="1" side="sl" part="lem"/></let>
<append n="v"><lit v="x"/><clip pos="1" side="tl" part="num"/></append>
<modify-case><var n="w"/><lit v="Aa"/></modify-case>
<out><lu><clip pos="1" side="tl" part="whole"/></lu><b/><lu><var n="v"/></lu><b pos="1"/>
<lu><var n="w"/></lu></out>
</action></rule>
<rule><pattern><pattern-item n="adj"/><pattern-item n="nom"/></pattern>
<action><call-macro n="turned"><with-param pos="2"/><with-param pos="1"/></call-macro></action></rule>
</section-rules>
</transfer>
"#;

/// Items with a lemma: the second item of the category is tried too.
const LEMMAS: &str = r#"<transfer default="lu">
<section-def-cats><def-cat n="pick"><cat-item tags="n.sg" lemma="dog"/><cat-item tags="adj"/></def-cat></section-def-cats>
<section-rules><rule><pattern><pattern-item n="pick"/></pattern>
<action><out><lu><lit v="hit"/></lu></out></action></rule></section-rules>
</transfer>
"#;

/// A chunk with the name and the case of variables, and one with a name of its own.
const CHUNKS: &str = r#"<transfer default="chunk">
<section-def-cats><def-cat n="adj"><cat-item tags="adj"/></def-cat>
<def-cat n="nom"><cat-item tags="n.*"/></def-cat></section-def-cats>
<section-def-vars><def-var n="named" v="noun"/><def-var n="cased" v="XX"/></section-def-vars>
<section-rules>
<rule><pattern><pattern-item n="nom"/></pattern>
<action><out><chunk namefrom="named" case="cased">
<tags><tag><lit-tag v="SN"/></tag><tag><lit-tag v="sg"/></tag></tags>
<lu><clip pos="1" side="tl" part="lem"/></lu><b/>
<mlu><lu><lit v="a"/></lu><lu><lit v="b"/></lu></mlu></chunk></out></action></rule>
<rule><pattern><pattern-item n="adj"/></pattern>
<action><out><chunk name="alone"><lu><clip pos="1" side="tl" part="whole"/></lu></chunk></out></action></rule>
</section-rules>
</transfer>
"#;

/// Chunks of interchunk: a name of several values, and the content.
const BETWEEN: &str = r#"<interchunk>
<section-def-cats><def-cat n="sn"><cat-item tags="SN.*" lemma="an"/></def-cat></section-def-cats>
<section-def-attrs><def-attr n="num"><attr-item tags="sg"/><attr-item tags="pl"/></def-attr></section-def-attrs>
<section-rules><rule><pattern><pattern-item n="sn"/></pattern>
<action><let><clip pos="1" part="num"/><lit-tag v="pl"/></let>
<out><chunk><clip pos="1" part="lem" side="tl" queue="yes"/><lit v="b"/>
<case-of pos="1" part="lem" side="sl"/><clip pos="1" part="tags"/><clip pos="1" part="num" link-to="5"/>
<clip pos="1" part="chcontent"/></chunk></out></action></rule></section-rules>
</interchunk>
"#;

/// A macro of postchunk, with the chunk at position 0.
const BEHIND: &str = r#"<postchunk>
<section-def-cats><def-cat n="any"><cat-item name="swap"/><cat-item name="keep"/></def-cat></section-def-cats>
<section-def-macros><def-macro n="of" npar="1">
<out><lu><clip pos="1" part="lem" side="tl" queue="no"/><clip pos="0" part="tags"/>
<clip pos="0" part="tags" link-to="3"/></lu></out></def-macro></section-def-macros>
<section-rules><rule><pattern><pattern-item n="any"/></pattern>
<action><call-macro n="of"><with-param pos="2"/></call-macro>
<out><b pos="1"/><lu><case-of pos="0" part="lem" side="sl"/></lu></out></action></rule></section-rules>
</postchunk>
"#;

/// What isn't supported: a rule that rejects itself, and one with a weight.
const REJECTING: &str = r#"<transfer>
<section-def-cats><def-cat n="nom"><cat-item tags="n"/></def-cat></section-def-cats>
<section-rules><rule><pattern><pattern-item n="nom"/></pattern>
<action><reject-current-rule/></action></rule></section-rules>
</transfer>
"#;

const WEIGHED: &str = r#"<transfer>
<section-def-cats><def-cat n="nom"><cat-item tags="n"/></def-cat></section-def-cats>
<section-rules>
<rule weight="0.5"><pattern><pattern-item n="nom"/></pattern><action></action></rule></section-rules>
</transfer>
"#;

/// A category without a name has no name, the empty one neither: the use stands before it.
const NAMELESS: &str = r#"<transfer><section-rules><rule>
<pattern><pattern-item n=""/></pattern><action></action></rule></section-rules>
<section-def-cats>
<def-cat/></section-def-cats></transfer>
"#;

/// An output of postchunk holds no chunks.
const MISUSING: &str = r#"<postchunk>
<section-def-cats><def-cat n="any"><cat-item name="a"/></def-cat></section-def-cats>
<section-rules><rule><pattern><pattern-item n="any"/></pattern>
<action><out><chunk><clip pos="1" part="whole"/></chunk></out></action></rule></section-rules>
</postchunk>
"#;

const ROWS: &[Row] = &[
    done_over!(
        &[("RULES", CONDITIONS)],
        "transfer RULES BI",
        "^dog<n><sg>$ ^Hound<n><sg>$",
        "^abcdefgHiJKlmOPq<n><x>$ ^ABCdEFgHIjklnopq<n><x>$",
    ),
    done_over!(
        &[("RULES", VALUES)],
        "transfer RULES BI",
        "^Dog<n><sg>$ ^TAKE# off<vblex>$",
        "^Perro Aa<n><m><sg><7>$ ^Go# offTAKE<vblex>$",
    ),
    done_over!(
        &[("RULES", STATEMENTS)],
        "transfer RULES BI",
        "^dog<n><sg>$ ^black<adj>$ ^cat<n><pl>$",
        "^PERRO<n><m><pl>$ ^dogx<pl>$ ^Uno$ ^gato+negro<adj>$",
    ),
    done_over!(
        &[("RULES", LEMMAS)],
        "transfer RULES BI",
        "^Dog<n><sg>$ ^cat<n><sg>$ ^black<adj>$",
        "^hit$ ^gato<n><m><sg>$ ^hit$",
    ),
    done_over!(
        &[("RULES", CHUNKS)],
        "transfer RULES BI",
        "^dog<n><sg>$ ^black<adj>$",
        "^NOUN<SN><sg>{^perro$ ^a+b$}$ ^alone{^negro<adj>$}$",
    ),
    done_over!(
        &[("RULES", BETWEEN)],
        "interchunk RULES",
        "^An<SN><sg>{^x<n>$}$ ^b<SN><sg>{^x<n>$}$",
        "^AnbAa<SN><pl><5>{^x<n>$}$ ^b<SN><sg>{^x<n>$}$",
    ),
    done_over!(
        &[("RULES", BEHIND)],
        "postchunk RULES",
        "^keep<SN><pl>{^x<n>$[<i>]^y<n>$}$ ^other<SN>{^x<n>$}$",
        "^y<SN><pl><3>$[<i>]^aa$ ^x<n>$",
    ),
];

#[test]
fn every_element_of_rules_is_run(rt: HostRuntime) -> Result<(), Fail> {
    check_rows(&rt, rt.alloc(), ROWS, &[7])
}

const REFUSED: &[Row] = &[
    case_over!(
        &[("RULES", REJECTING)],
        "transfer RULES BI",
        "^dog<n>$",
        NONE,
        bad_rules!(1, 13, 4),
        "",
        "apertium: RULES: line 4: rule fault 13 Unsupported\n"
    ),
    case_over!(
        &[("RULES", WEIGHED)],
        "transfer RULES BI",
        "^dog<n>$",
        NONE,
        bad_rules!(1, 13, 4),
        "",
        "apertium: RULES: line 4: rule fault 13 Unsupported\n"
    ),
    case_over!(
        &[("RULES", NAMELESS)],
        "transfer RULES BI",
        "^dog<n>$",
        NONE,
        bad_rules!(1, 8, 2),
        "",
        "apertium: RULES: line 2: rule fault 8 UndefinedName\n"
    ),
    case_over!(
        &[("RULES", MISUSING)],
        "postchunk RULES",
        "^dog<n>$",
        NONE,
        bad_rules!(1, 12, 4),
        "",
        "apertium: RULES: line 4: rule fault 12 Misused\n"
    ),
];

#[test]
fn what_rules_may_not_hold_is_refused(rt: HostRuntime) -> Result<(), Fail> {
    check_rows(&rt, rt.alloc(), REFUSED, &[7])
}
