//! The files that every case has: code lists, documents and rule files.

/// Each file's name is a line of its own in front of its content, and `¶` stands between the files.
pub(crate) const FILES: &str = r##"eur
[lists]
currency = ["EUR"]
¶usd
[lists]
currency = ["USD"]
¶money
[lists]
money = []
¶spaced
[lists]
currency = ["US D"]
¶brand
[[term]]
number = 1
place = "line"
type = "T"
ubl = "cac:Item/cbc:BrandName"
¶named
[[term]]
number = 7
place = "line"
type = "T"
cn = "cac:Item/cbc:Name"
¶first
<a><b>x</b></a>
¶ill
<a></b>
¶text
no rules
¶sums
<schema xmlns="http://purl.oclc.org/dsdl/schematron" queryBinding="xslt2">
<phase id="one"><active pattern="b"/></phase>
<pattern id="a"><rule context="r"><assert id="A" test="sum(x) = 3">the sum is <value-of select="sum(x)"/></assert></rule></pattern>
<pattern id="b"><rule context="x"><report id="B" test=". = 1">one</report></rule></pattern>
</schema>
¶weights
<schema xmlns="http://purl.oclc.org/dsdl/schematron" queryBinding="xslt2">
<pattern><rule context="x[1]"><assert flag="warning" test=". = 1">light</assert><report test="1 div (. - 2.5)">heavy</report></rule></pattern>
</schema>
¶minor
<schema xmlns="http://purl.oclc.org/dsdl/schematron" queryBinding="xslt2">
<phase id="one"><active pattern="p"/></phase>
<pattern id="p"><rule context="x[1]"><assert role="information" test=". = 1">light</assert></rule></pattern>
</schema>
¶bad
<schema xmlns="http://purl.oclc.org/dsdl/schematron" queryBinding="xslt2"><pattern><rule context="a"><assert test="1 # 2">x</assert></rule></pattern></schema>
¶taxes
<schema xmlns="http://purl.oclc.org/dsdl/schematron" queryBinding="xslt2">
<ns prefix="cbc" uri="urn:oasis:names:specification:ubl:schema:xsd:CommonBasicComponents-2"/>
<pattern><rule context="cbc:TaxAmount"><assert id="A" test=". = 3">It is <value-of select="."/>.</assert></rule></pattern>
</schema>
¶dates
<schema xmlns="http://purl.oclc.org/dsdl/schematron" queryBinding="xslt2">
<ns prefix="cbc" uri="urn:oasis:names:specification:ubl:schema:xsd:CommonBasicComponents-2"/>
<pattern><rule context="cbc:IssueDate"><report id="B" test="true()">The date is <value-of select="."/>.</report></rule></pattern>
</schema>
"##;
