// Made by conformance/rule_texts.py.

/// The text of rules/en16931-ubl.sch.
pub(crate) const UBL_RULES: &str = r#"<?xml version="1.0" encoding="UTF-8"?>
<!-- The business rules of EN 16931-1 over invoices and credit notes in UBL 2.1. -->
<schema xmlns="http://purl.oclc.org/dsdl/schematron" queryBinding="xslt2">
  <title>Business rules of EN 16931-1 over UBL 2.1, Invoice and CreditNote</title>

  <ns prefix="ubl" uri="urn:oasis:names:specification:ubl:schema:xsd:Invoice-2"/>
  <ns prefix="cn" uri="urn:oasis:names:specification:ubl:schema:xsd:CreditNote-2"/>
  <ns prefix="cac" uri="urn:oasis:names:specification:ubl:schema:xsd:CommonAggregateComponents-2"/>
  <ns prefix="cbc" uri="urn:oasis:names:specification:ubl:schema:xsd:CommonBasicComponents-2"/>
  <ns prefix="xs" uri="http://www.w3.org/2001/XMLSchema"/>

  <p>The same rules over CII are in en16931-cii.sch. The two files differ in contexts and in the values of lets alone:
    named after a term (BT-n) or a group (BG-n) holds its values or elements.</p>
  <p>Blank elements and attributes are no values. An amount, a quantity or a rate that is no number is none either: it
    counts for nothing in sums, and where one must be there it is missing.</p>
  <p>A rule that compares values is judged where the mandatory ones among them are there, since another rule says that
    they are missing. An optional amount that is missing counts as 0.</p>

  <!-- Where the terms of the invoice as a whole stand -->

  <let name="invoice" value="/ubl:Invoice | /cn:CreditNote"/>
  <let name="seller" value="$invoice/cac:AccountingSupplierParty/cac:Party"/>
  <let name="buyer" value="$invoice/cac:AccountingCustomerParty/cac:Party"/>
  <let name="totals" value="$invoice/cac:LegalMonetaryTotal"/>

  <let name="BT-1" value="$invoice/cbc:ID[normalize-space()]"/>
  <let name="BT-2" value="$invoice/cbc:IssueDate[normalize-space()]"/>
  <let name="BT-3"
      value="(/ubl:Invoice/cbc:InvoiceTypeCode | /cn:CreditNote/cbc:CreditNoteTypeCode)[normalize-space()]"/>
  <let name="BT-5" value="$invoice/cbc:DocumentCurrencyCode[normalize-space()]/normalize-space()"/>
  <let name="BT-6" value="$invoice/cbc:TaxCurrencyCode[normalize-space()]/normalize-space()"/>
  <let name="BT-7" value="$invoice/cbc:TaxPointDate[normalize-space()]"/>
  <let name="BT-8" value="$invoice/cac:InvoicePeriod/cbc:DescriptionCode[normalize-space()]"/>
  <let name="BT-9"
      value="(/ubl:Invoice/cbc:DueDate | /cn:CreditNote/cac:PaymentMeans/cbc:PaymentDueDate)[normalize-space()]"/>
  <let name="BT-20" value="$invoice/cac:PaymentTerms/cbc:Note[normalize-space()]"/>
  <let name="BT-24" value="$invoice/cbc:CustomizationID[normalize-space()]"/>
  <let name="BT-27" value="$seller/cac:PartyLegalEntity/cbc:RegistrationName[normalize-space()]"/>
  <let name="BT-29"
      value="$seller/cac:PartyIdentification/cbc:ID[normalize-space()][normalize-space(@schemeID) != 'SEPA']"/>
  <let name="BT-30" value="$seller/cac:PartyLegalEntity/cbc:CompanyID[normalize-space()]"/>
  <let name="BT-31"
      value="$seller/cac:PartyTaxScheme[cac:TaxScheme/cbc:ID/normalize-space() = 'VAT']/cbc:CompanyID
          [normalize-space()]"/>
  <let name="BT-32"
      value="$seller/cac:PartyTaxScheme[not(cac:TaxScheme/cbc:ID/normalize-space() = 'VAT')]/cbc:CompanyID
          [normalize-space()]"/>
  <let name="BG-5" value="$seller/cac:PostalAddress"/>
  <let name="BT-40" value="$BG-5/cac:Country/cbc:IdentificationCode[normalize-space()]/normalize-space()"/>
  <let name="BT-44" value="$buyer/cac:PartyLegalEntity/cbc:RegistrationName[normalize-space()]"/>
  <let name="BT-47" value="$buyer/cac:PartyLegalEntity/cbc:CompanyID[normalize-space()]"/>
  <let name="BT-48"
      value="$buyer/cac:PartyTaxScheme[cac:TaxScheme/cbc:ID/normalize-space() = 'VAT']/cbc:CompanyID
          [normalize-space()]"/>
  <let name="BG-8" value="$buyer/cac:PostalAddress"/>
  <let name="BT-55" value="$BG-8/cac:Country/cbc:IdentificationCode[normalize-space()]/normalize-space()"/>
  <let name="BT-63" value="$invoice/cac:TaxRepresentativeParty/cac:PartyTaxScheme/cbc:CompanyID[normalize-space()]"/>
  <let name="BT-72" value="$invoice/cac:Delivery/cbc:ActualDeliveryDate[normalize-space()]"/>
  <let name="BT-73" value="$invoice/cac:InvoicePeriod/cbc:StartDate[normalize-space()]"/>
  <let name="BT-74" value="$invoice/cac:InvoicePeriod/cbc:EndDate[normalize-space()]"/>
  <let name="BT-80"
      value="$invoice/cac:Delivery/cac:DeliveryLocation/cac:Address/cac:Country/cbc:IdentificationCode
          [normalize-space()]"/>

  <!-- Groups that may be repeated -->

  <let name="BG-18" value="$invoice/cac:PaymentMeans/cac:CardAccount"/>
  <let name="BG-19" value="$invoice/cac:PaymentMeans/cac:PaymentMandate"/>
  <let name="BG-20" value="$invoice/cac:AllowanceCharge[not(cbc:ChargeIndicator/normalize-space() = ('true', '1'))]"/>
  <let name="BG-21" value="$invoice/cac:AllowanceCharge[cbc:ChargeIndicator/normalize-space() = ('true', '1')]"/>
  <let name="BG-23" value="$invoice/cac:TaxTotal/cac:TaxSubtotal"/>
  <let name="BG-25" value="/ubl:Invoice/cac:InvoiceLine | /cn:CreditNote/cac:CreditNoteLine"/>

  <!-- Amounts, as numbers. Of the VAT totals the one in the accounting currency (BT-6) is BT-111, unless that is the
       invoice's own (BT-5); every other one is BT-110. -->

  <let name="accounting" value="$BT-6[not(. = $BT-5)]"/>
  <let name="BT-106" value="$totals/cbc:LineExtensionAmount[. castable as xs:decimal]/xs:decimal(.)"/>
  <let name="BT-107" value="$totals/cbc:AllowanceTotalAmount[. castable as xs:decimal]/xs:decimal(.)"/>
  <let name="BT-108" value="$totals/cbc:ChargeTotalAmount[. castable as xs:decimal]/xs:decimal(.)"/>
  <let name="BT-109" value="$totals/cbc:TaxExclusiveAmount[. castable as xs:decimal]/xs:decimal(.)"/>
  <let name="BT-110"
      value="$invoice/cac:TaxTotal/cbc:TaxAmount[not(normalize-space(@currencyID) = $accounting)]
          [. castable as xs:decimal]/xs:decimal(.)"/>
  <let name="BT-111"
      value="$invoice/cac:TaxTotal/cbc:TaxAmount[normalize-space(@currencyID) = $accounting]
          [. castable as xs:decimal]/xs:decimal(.)"/>
  <let name="BT-112" value="$totals/cbc:TaxInclusiveAmount[. castable as xs:decimal]/xs:decimal(.)"/>
  <let name="BT-113" value="$totals/cbc:PrepaidAmount[. castable as xs:decimal]/xs:decimal(.)"/>
  <let name="BT-114" value="$totals/cbc:PayableRoundingAmount[. castable as xs:decimal]/xs:decimal(.)"/>
  <let name="BT-115" value="$totals/cbc:PayableAmount[. castable as xs:decimal]/xs:decimal(.)"/>
  <let name="sum-BT-92" value="sum($BG-20/cbc:Amount[. castable as xs:decimal]/xs:decimal(.))"/>
  <let name="sum-BT-99" value="sum($BG-21/cbc:Amount[. castable as xs:decimal]/xs:decimal(.))"/>
  <let name="sum-BT-117" value="sum($BG-23/cbc:TaxAmount[. castable as xs:decimal]/xs:decimal(.))"/>
  <let name="sum-BT-131" value="sum($BG-25/cbc:LineExtensionAmount[. castable as xs:decimal]/xs:decimal(.))"/>

  <!-- Lists of codes, those of codes.toml and the two that the program has: the countries of ISO 3166-1, with 1A and XK
       for Kosovo; the currencies of ISO 4217; media types of attachments; the VAT categories of UNTDID 5305; what a VAT
       point date may be (UNTDID 2005). A VAT identifier may also begin with EL for Greece, and XI for Northern Ireland. -->

  <let name="countries"
      value="('AD', 'AE', 'AF', 'AG', 'AI', 'AL', 'AM', 'AO', 'AQ', 'AR', 'AS', 'AT',
          'AU', 'AW', 'AX', 'AZ', 'BA', 'BB', 'BD', 'BE', 'BF', 'BG', 'BH', 'BI', 'BJ', 'BL', 'BM', 'BN',
          'BO', 'BQ', 'BR', 'BS', 'BT', 'BV', 'BW', 'BY', 'BZ', 'CA', 'CC', 'CD', 'CF', 'CG', 'CH', 'CI',
          'CK', 'CL', 'CM', 'CN', 'CO', 'CR', 'CU', 'CV', 'CW', 'CX', 'CY', 'CZ', 'DE', 'DJ', 'DK', 'DM',
          'DO', 'DZ', 'EC', 'EE', 'EG', 'EH', 'ER', 'ES', 'ET', 'FI', 'FJ', 'FK', 'FM', 'FO', 'FR', 'GA',
          'GB', 'GD', 'GE', 'GF', 'GG', 'GH', 'GI', 'GL', 'GM', 'GN', 'GP', 'GQ', 'GR', 'GS', 'GT', 'GU',
          'GW', 'GY', 'HK', 'HM', 'HN', 'HR', 'HT', 'HU', 'ID', 'IE', 'IL', 'IM', 'IN', 'IO', 'IQ', 'IR',
          'IS', 'IT', 'JE', 'JM', 'JO', 'JP', 'KE', 'KG', 'KH', 'KI', 'KM', 'KN', 'KP', 'KR', 'KW', 'KY',
          'KZ', 'LA', 'LB', 'LC', 'LI', 'LK', 'LR', 'LS', 'LT', 'LU', 'LV', 'LY', 'MA', 'MC', 'MD', 'ME',
          'MF', 'MG', 'MH', 'MK', 'ML', 'MM', 'MN', 'MO', 'MP', 'MQ', 'MR', 'MS', 'MT', 'MU', 'MV', 'MW',
          'MX', 'MY', 'MZ', 'NA', 'NC', 'NE', 'NF', 'NG', 'NI', 'NL', 'NO', 'NP', 'NR', 'NU', 'NZ', 'OM',
          'PA', 'PE', 'PF', 'PG', 'PH', 'PK', 'PL', 'PM', 'PN', 'PR', 'PS', 'PT', 'PW', 'PY', 'QA', 'RE',
          'RO', 'RS', 'RU', 'RW', 'SA', 'SB', 'SC', 'SD', 'SE', 'SG', 'SH', 'SI', 'SJ', 'SK', 'SL', 'SM',
          'SN', 'SO', 'SR', 'SS', 'ST', 'SV', 'SX', 'SY', 'SZ', 'TC', 'TD', 'TF', 'TG', 'TH', 'TJ', 'TK',
          'TL', 'TM', 'TN', 'TO', 'TR', 'TT', 'TV', 'TW', 'TZ', 'UA', 'UG', 'UM', 'US', 'UY', 'UZ', 'VA',
          'VC', 'VE', 'VG', 'VI', 'VN', 'VU', 'WF', 'WS', 'YE', 'YT', 'ZA', 'ZM', 'ZW', '1A', 'XK')"/>
  <let name="prefixes" value="($countries, 'EL', 'XI')"/>
  <let name="currencies"
      value="('AED', 'AFN', 'ALL', 'AMD', 'ANG', 'AOA', 'ARS', 'AUD', 'AWG', 'AZN',
          'BAM', 'BBD', 'BDT', 'BGN', 'BHD', 'BIF', 'BMD', 'BND', 'BOB', 'BOV', 'BRL', 'BSD', 'BTN', 'BWP',
          'BYN', 'BZD', 'CAD', 'CDF', 'CHE', 'CHF', 'CHW', 'CLF', 'CLP', 'CNY', 'COP', 'COU', 'CRC', 'CUC',
          'CUP', 'CVE', 'CZK', 'DJF', 'DKK', 'DOP', 'DZD', 'EGP', 'ERN', 'ETB', 'EUR', 'FJD', 'FKP', 'GBP',
          'GEL', 'GHS', 'GIP', 'GMD', 'GNF', 'GTQ', 'GYD', 'HKD', 'HNL', 'HRK', 'HTG', 'HUF', 'IDR', 'ILS',
          'INR', 'IQD', 'IRR', 'ISK', 'JMD', 'JOD', 'JPY', 'KES', 'KGS', 'KHR', 'KMF', 'KPW', 'KRW', 'KWD',
          'KYD', 'KZT', 'LAK', 'LBP', 'LKR', 'LRD', 'LSL', 'LYD', 'MAD', 'MDL', 'MGA', 'MKD', 'MMK', 'MNT',
          'MOP', 'MRU', 'MUR', 'MVR', 'MWK', 'MXN', 'MXV', 'MYR', 'MZN', 'NAD', 'NGN', 'NIO', 'NOK', 'NPR',
          'NZD', 'OMR', 'PAB', 'PEN', 'PGK', 'PHP', 'PKR', 'PLN', 'PYG', 'QAR', 'RON', 'RSD', 'RUB', 'RWF',
          'SAR', 'SBD', 'SCR', 'SDG', 'SEK', 'SGD', 'SHP', 'SLE', 'SLL', 'SOS', 'SRD', 'SSP', 'STN', 'SVC',
          'SYP', 'SZL', 'THB', 'TJS', 'TMT', 'TND', 'TOP', 'TRY', 'TTD', 'TWD', 'TZS', 'UAH', 'UGX', 'USD',
          'USN', 'UYI', 'UYU', 'UYW', 'UZS', 'VED', 'VES', 'VND', 'VUV', 'WST', 'XAD', 'XAF', 'XAG', 'XAU',
          'XBA', 'XBB', 'XBC', 'XBD', 'XCD', 'XCG', 'XDR', 'XOF', 'XPD', 'XPF', 'XPT', 'XSU', 'XTS', 'XUA',
          'XXX', 'YER', 'ZAR', 'ZMW', 'ZWG', 'ZWL')"/>
  <let name="media"
      value="('application/pdf', 'image/png', 'image/jpeg', 'text/csv',
          'application/vnd.openxmlformats-officedocument.spreadsheetml.sheet',
          'application/vnd.oasis.opendocument.spreadsheet')"/>
  <let name="categories" value="('S', 'Z', 'E', 'AE', 'K', 'G', 'O', 'L', 'M', 'B')"/>
  <let name="points" value="('3', '35', '432')"/>

  <!-- The VAT categories of lines, each once: a pattern of one of them looks at lines only where there is one of it. -->
  <let name="line-categories"
      value="distinct-values($BG-25/cac:Item/cac:ClassifiedTaxCategory/cbc:ID/normalize-space())"/>
  <let name="has-S" value="$line-categories = 'S'"/>
  <let name="has-L" value="$line-categories = 'L'"/>
  <let name="has-M" value="$line-categories = 'M'"/>
  <let name="has-Z" value="$line-categories = 'Z'"/>
  <let name="has-E" value="$line-categories = 'E'"/>
  <let name="has-AE" value="$line-categories = 'AE'"/>
  <let name="has-K" value="$line-categories = 'K'"/>
  <let name="has-G" value="$line-categories = 'G'"/>
  <let name="has-O" value="$line-categories = 'O'"/>
  <let name="has-B" value="$line-categories = 'B'"/>

  <!-- What has to be there, and of what values -->

  <pattern id="integrity">
    <title>Integrity: BR-01 to BR-67</title>

    <rule context="/*">
      <assert id="BR-01" flag="fatal" test="exists($BT-24)">
        An invoice must have a specification identifier (BT-24).</assert>
      <assert id="BR-02" flag="fatal" test="exists($BT-1)">
        An invoice must have an invoice number (BT-1).</assert>
      <assert id="BR-03" flag="fatal" test="exists($BT-2)">
        An invoice must have an issue date (BT-2).</assert>
      <assert id="BR-04" flag="fatal" test="exists($BT-3)">
        An invoice must have a type code (BT-3).</assert>
      <assert id="BR-05" flag="fatal" test="exists($BT-5)">
        An invoice must have a currency code (BT-5).</assert>
      <assert id="BR-06" flag="fatal" test="exists($BT-27)">
        An invoice must have the name of the seller (BT-27).</assert>
      <assert id="BR-07" flag="fatal" test="exists($BT-44)">
        An invoice must have the name of the buyer (BT-44).</assert>
      <assert id="BR-08" flag="fatal" test="exists($BG-5)">
        An invoice must have the postal address of the seller (BG-5).</assert>
      <assert id="BR-10" flag="fatal" test="exists($BG-8)">
        An invoice must have the postal address of the buyer (BG-8).</assert>
      <assert id="BR-12" flag="fatal" test="exists($BT-106)">
        An invoice must have the sum of the line net amounts (BT-106).</assert>
      <assert id="BR-13" flag="fatal" test="exists($BT-109)">
        An invoice must have the total amount without VAT (BT-109).</assert>
      <assert id="BR-14" flag="fatal" test="exists($BT-112)">
        An invoice must have the total amount with VAT (BT-112).</assert>
      <assert id="BR-15" flag="fatal" test="exists($BT-115)">
        An invoice must have the amount due for payment (BT-115).</assert>
      <assert id="BR-16" flag="fatal" test="exists($BG-25)">
        An invoice must have at least one line (BG-25).</assert>
      <assert id="BR-53" flag="fatal" test="empty($accounting) or exists($BT-111)">
        An invoice with a VAT accounting currency (BT-6) that isn't its own currency (BT-5) must have the total VAT
        amount in the accounting currency (BT-111).</assert>
      <assert id="BR-66" flag="fatal" test="count($BG-18) &lt;= 1">
        An invoice must not have more than one payment card (BG-18).</assert>
      <assert id="BR-67" flag="fatal" test="count($BG-19) &lt;= 1">
        An invoice must not have more than one direct debit mandate (BG-19).</assert>
    </rule>

    <rule context="/*/cac:AccountingSupplierParty/cac:Party/cac:PostalAddress">
      <let name="own-BT-40" value="cac:Country/cbc:IdentificationCode[normalize-space()]"/>
      <assert id="BR-09" flag="fatal" test="exists($own-BT-40)">
        The postal address of the seller (BG-5) must have a country code (BT-40).</assert>
    </rule>

    <rule context="/*/cac:AccountingCustomerParty/cac:Party/cac:PostalAddress">
      <let name="own-BT-55" value="cac:Country/cbc:IdentificationCode[normalize-space()]"/>
      <assert id="BR-11" flag="fatal" test="exists($own-BT-55)">
        The postal address of the buyer (BG-8) must have a country code (BT-55).</assert>
    </rule>

    <!-- A payee of whom there is but the creditor identifier of a direct debit (BT-90) is none. -->
    <rule context="/*/cac:PayeeParty">
      <let name="BT-59" value="cac:PartyName/cbc:Name[normalize-space()]"/>
      <let name="BT-60"
          value="cac:PartyIdentification/cbc:ID[normalize-space()][normalize-space(@schemeID) != 'SEPA']"/>
      <let name="BT-61" value="cac:PartyLegalEntity/cbc:CompanyID[normalize-space()]"/>
      <assert id="BR-17" flag="fatal" test="exists($BT-59) or empty(($BT-60, $BT-61))">
        A payee (BG-10), who is someone else than the seller (BG-4), must have a name (BT-59).</assert>
    </rule>

    <rule context="/*/cac:TaxRepresentativeParty">
      <let name="BT-62" value="cac:PartyName/cbc:Name[normalize-space()]"/>
      <let name="BG-12" value="cac:PostalAddress"/>
      <let name="own-BT-63" value="cac:PartyTaxScheme/cbc:CompanyID[normalize-space()]"/>
      <assert id="BR-18" flag="fatal" test="exists($BT-62)">
        A tax representative of the seller (BG-11) must have a name (BT-62).</assert>
      <assert id="BR-19" flag="fatal" test="exists($BG-12)">
        A tax representative of the seller (BG-11) must have a postal address (BG-12).</assert>
      <assert id="BR-56" flag="fatal" test="exists($own-BT-63)">
        A tax representative of the seller (BG-11) must have a VAT identifier (BT-63).</assert>
    </rule>

    <rule context="/*/cac:TaxRepresentativeParty/cac:PostalAddress">
      <let name="BT-69" value="cac:Country/cbc:IdentificationCode[normalize-space()]"/>
      <assert id="BR-20" flag="fatal" test="exists($BT-69)">
        The postal address of a tax representative of the seller (BG-12) must have a country code (BT-69).</assert>
    </rule>

    <rule context="/ubl:Invoice/cac:InvoiceLine | /cn:CreditNote/cac:CreditNoteLine">
      <let name="quantity"
          value="self::cac:InvoiceLine/cbc:InvoicedQuantity | self::cac:CreditNoteLine/cbc:CreditedQuantity"/>
      <let name="BT-126" value="cbc:ID[normalize-space()]"/>
      <let name="BT-129" value="$quantity[. castable as xs:decimal]"/>
      <let name="BT-130" value="$quantity[normalize-space()]/@unitCode[normalize-space()]"/>
      <let name="BT-131" value="cbc:LineExtensionAmount[. castable as xs:decimal]"/>
      <let name="BT-146" value="cac:Price/cbc:PriceAmount[. castable as xs:decimal]/xs:decimal(.)"/>
      <let name="BT-148" value="cac:Price/cac:AllowanceCharge/cbc:BaseAmount[. castable as xs:decimal]/xs:decimal(.)"/>
      <let name="BT-153" value="cac:Item/cbc:Name[normalize-space()]"/>
      <assert id="BR-21" flag="fatal" test="exists($BT-126)">
        An invoice line (BG-25) must have an identifier (BT-126).</assert>
      <assert id="BR-22" flag="fatal" test="exists($BT-129)">
        An invoice line (BG-25) must have an invoiced quantity (BT-129).</assert>
      <assert id="BR-23" flag="fatal" test="exists($BT-130)">
        An invoice line (BG-25) must have the unit of measure of its quantity (BT-130).</assert>
      <assert id="BR-24" flag="fatal" test="exists($BT-131)">
        An invoice line (BG-25) must have a net amount (BT-131).</assert>
      <assert id="BR-25" flag="fatal" test="exists($BT-153)">
        An invoice line (BG-25) must have the name of the item (BT-153).</assert>
      <assert id="BR-26" flag="fatal" test="exists($BT-146)">
        An invoice line (BG-25) must have the net price of the item (BT-146).</assert>
      <assert id="BR-27" flag="fatal" test="every $amount in $BT-146 satisfies $amount &gt;= 0">
        The net price of an item (BT-146) must not be negative.</assert>
      <assert id="BR-28" flag="fatal" test="every $amount in $BT-148 satisfies $amount &gt;= 0">
        The gross price of an item (BT-148) must not be negative.</assert>
    </rule>

    <!-- Days are compared as texts, which are in order where they are written as the syntax has it. -->
    <rule context="/*/cac:InvoicePeriod">
      <let name="start" value="cbc:StartDate[normalize-space()]/substring(normalize-space(), 1, 10)"/>
      <let name="end" value="cbc:EndDate[normalize-space()]/substring(normalize-space(), 1, 10)"/>
      <assert id="BR-29" flag="fatal" test="every $first in $start, $last in $end satisfies $first &lt;= $last">
        The end date of the invoicing period (BT-74) must not be before its start date (BT-73).</assert>
    </rule>

    <rule context="cac:InvoiceLine/cac:InvoicePeriod | cac:CreditNoteLine/cac:InvoicePeriod">
      <let name="start" value="cbc:StartDate[normalize-space()]/substring(normalize-space(), 1, 10)"/>
      <let name="end" value="cbc:EndDate[normalize-space()]/substring(normalize-space(), 1, 10)"/>
      <assert id="BR-30" flag="fatal" test="every $first in $start, $last in $end satisfies $first &lt;= $last">
        The end date of an invoice line's period (BT-135) must not be before its start date (BT-134).</assert>
    </rule>

    <rule context="/*/cac:AllowanceCharge[not(cbc:ChargeIndicator/normalize-space() = ('true', '1'))]">
      <let name="BT-92" value="cbc:Amount[. castable as xs:decimal]"/>
      <let name="BT-95" value="cac:TaxCategory/cbc:ID[normalize-space()]"/>
      <let name="BT-97" value="cbc:AllowanceChargeReason[normalize-space()]"/>
      <let name="BT-98" value="cbc:AllowanceChargeReasonCode[normalize-space()]"/>
      <assert id="BR-31" flag="fatal" test="exists($BT-92)">
        A document level allowance (BG-20) must have an amount (BT-92).</assert>
      <assert id="BR-32" flag="fatal" test="exists($BT-95)">
        A document level allowance (BG-20) must have a VAT category code (BT-95).</assert>
      <assert id="BR-33" flag="fatal" test="exists(($BT-97, $BT-98))">
        A document level allowance (BG-20) must have a reason (BT-97) or a reason code (BT-98).</assert>
    </rule>

    <rule context="/*/cac:AllowanceCharge[cbc:ChargeIndicator/normalize-space() = ('true', '1')]">
      <let name="BT-99" value="cbc:Amount[. castable as xs:decimal]"/>
      <let name="BT-102" value="cac:TaxCategory/cbc:ID[normalize-space()]"/>
      <let name="BT-104" value="cbc:AllowanceChargeReason[normalize-space()]"/>
      <let name="BT-105" value="cbc:AllowanceChargeReasonCode[normalize-space()]"/>
      <assert id="BR-36" flag="fatal" test="exists($BT-99)">
        A document level charge (BG-21) must have an amount (BT-99).</assert>
      <assert id="BR-37" flag="fatal" test="exists($BT-102)">
        A document level charge (BG-21) must have a VAT category code (BT-102).</assert>
      <assert id="BR-38" flag="fatal" test="exists(($BT-104, $BT-105))">
        A document level charge (BG-21) must have a reason (BT-104) or a reason code (BT-105).</assert>
    </rule>

    <rule context="cac:InvoiceLine/cac:AllowanceCharge[not(cbc:ChargeIndicator/normalize-space() = ('true', '1'))]
                   | cac:CreditNoteLine/cac:AllowanceCharge
                     [not(cbc:ChargeIndicator/normalize-space() = ('true', '1'))]">
      <let name="BT-136" value="cbc:Amount[. castable as xs:decimal]"/>
      <let name="BT-139" value="cbc:AllowanceChargeReason[normalize-space()]"/>
      <let name="BT-140" value="cbc:AllowanceChargeReasonCode[normalize-space()]"/>
      <assert id="BR-41" flag="fatal" test="exists($BT-136)">
        An invoice line allowance (BG-27) must have an amount (BT-136).</assert>
      <assert id="BR-42" flag="fatal" test="exists(($BT-139, $BT-140))">
        An invoice line allowance (BG-27) must have a reason (BT-139) or a reason code (BT-140).</assert>
    </rule>

    <rule context="cac:InvoiceLine/cac:AllowanceCharge[cbc:ChargeIndicator/normalize-space() = ('true', '1')]
                   | cac:CreditNoteLine/cac:AllowanceCharge[cbc:ChargeIndicator/normalize-space() = ('true', '1')]">
      <let name="BT-141" value="cbc:Amount[. castable as xs:decimal]"/>
      <let name="BT-144" value="cbc:AllowanceChargeReason[normalize-space()]"/>
      <let name="BT-145" value="cbc:AllowanceChargeReasonCode[normalize-space()]"/>
      <assert id="BR-43" flag="fatal" test="exists($BT-141)">
        An invoice line charge (BG-28) must have an amount (BT-141).</assert>
      <assert id="BR-44" flag="fatal" test="exists(($BT-144, $BT-145))">
        An invoice line charge (BG-28) must have a reason (BT-144) or a reason code (BT-145).</assert>
    </rule>

    <rule context="/*/cac:TaxTotal/cac:TaxSubtotal">
      <let name="BT-116" value="cbc:TaxableAmount[. castable as xs:decimal]"/>
      <let name="BT-117" value="cbc:TaxAmount[. castable as xs:decimal]"/>
      <let name="BT-118" value="cac:TaxCategory/cbc:ID[normalize-space()]/normalize-space()"/>
      <let name="BT-119" value="cac:TaxCategory/cbc:Percent[. castable as xs:decimal]"/>
      <assert id="BR-45" flag="fatal" test="exists($BT-116)">
        A VAT breakdown (BG-23) must have a taxable amount (BT-116).</assert>
      <assert id="BR-46" flag="fatal" test="exists($BT-117)">
        A VAT breakdown (BG-23) must have a tax amount (BT-117).</assert>
      <assert id="BR-47" flag="fatal" test="exists($BT-118)">
        A VAT breakdown (BG-23) must have a VAT category code (BT-118).</assert>
      <assert id="BR-48" flag="fatal" test="exists($BT-119) or $BT-118 = 'O'">
        A VAT breakdown (BG-23) must have a VAT rate (BT-119), unless it isn't subject to VAT (O in BT-118).</assert>
    </rule>

    <rule context="/*/cac:PaymentMeans">
      <let name="BT-81" value="cbc:PaymentMeansCode[normalize-space()]/normalize-space()"/>
      <let name="BT-84" value="cac:PayeeFinancialAccount/cbc:ID[normalize-space()]"/>
      <assert id="BR-49" flag="fatal" test="exists($BT-81)">
        Payment instructions (BG-16) must have a payment means type code (BT-81).</assert>
      <assert id="BR-61" flag="fatal" test="not($BT-81 = ('30', '58')) or exists($BT-84)">
        Payment instructions for a credit transfer, SEPA (58) or other (30 in BT-81), must have a payment account
        identifier (BT-84).</assert>
    </rule>

    <rule context="/*/cac:PaymentMeans/cac:PayeeFinancialAccount">
      <let name="BT-84" value="cbc:ID[normalize-space()]"/>
      <assert id="BR-50" flag="fatal" test="exists($BT-84)">
        A credit transfer (BG-17) must have a payment account identifier (BT-84).</assert>
    </rule>

    <rule context="/*/cac:PaymentMeans/cac:CardAccount">
      <let name="BT-87" value="cbc:PrimaryAccountNumberID[normalize-space()]/normalize-space()"/>
      <!-- What isn't a digit masks one. -->
      <assert id="BR-51" flag="warning"
          test="every $number in $BT-87
                satisfies matches(translate($number, ' -', ''), '^[0-9]{0,6}[^0-9]*[0-9]{0,4}$')">
        Of a payment card's number (BT-87) at most the first six and the last four digits should be shown.</assert>
    </rule>

    <!-- A reference of type 130 is an invoiced object (BT-18), in a credit note one of type 50 a project (BT-11). -->
    <rule context="/ubl:Invoice/cac:AdditionalDocumentReference[not(cbc:DocumentTypeCode/normalize-space() = '130')]
                   | /cn:CreditNote/cac:AdditionalDocumentReference
                     [not(cbc:DocumentTypeCode/normalize-space() = ('130', '50'))]">
      <let name="BT-122" value="cbc:ID[normalize-space()]"/>
      <assert id="BR-52" flag="fatal" test="exists($BT-122)">
        A supporting document (BG-24) must have a reference (BT-122).</assert>
    </rule>

    <rule context="cac:InvoiceLine/cac:Item/cac:AdditionalItemProperty
                   | cac:CreditNoteLine/cac:Item/cac:AdditionalItemProperty">
      <let name="BT-160" value="cbc:Name[normalize-space()]"/>
      <let name="BT-161" value="cbc:Value[normalize-space()]"/>
      <assert id="BR-54" flag="fatal" test="exists($BT-160) and exists($BT-161)">
        An item attribute (BG-32) must have a name (BT-160) and a value (BT-161).</assert>
    </rule>

    <rule context="/*/cac:BillingReference">
      <let name="BT-25" value="cac:InvoiceDocumentReference/cbc:ID[normalize-space()]"/>
      <assert id="BR-55" flag="fatal" test="exists($BT-25)">
        A preceding invoice reference (BG-3) must have the number of that invoice (BT-25).</assert>
    </rule>

    <rule context="/*/cac:Delivery/cac:DeliveryLocation/cac:Address">
      <let name="own-BT-80" value="cac:Country/cbc:IdentificationCode[normalize-space()]"/>
      <assert id="BR-57" flag="fatal" test="exists($own-BT-80)">
        A deliver to address (BG-15) must have a country code (BT-80).</assert>
    </rule>

    <rule context="/*/cac:AccountingSupplierParty/cac:Party/cbc:EndpointID[normalize-space()]">
      <assert id="BR-62" flag="fatal" test="exists(@schemeID[normalize-space()])">
        The electronic address of the seller (BT-34) must have a scheme identifier (BT-34-1).</assert>
    </rule>

    <rule context="/*/cac:AccountingCustomerParty/cac:Party/cbc:EndpointID[normalize-space()]">
      <assert id="BR-63" flag="fatal" test="exists(@schemeID[normalize-space()])">
        The electronic address of the buyer (BT-49) must have a scheme identifier (BT-49-1).</assert>
    </rule>

    <rule context="cac:InvoiceLine/cac:Item/cac:StandardItemIdentification/cbc:ID[normalize-space()]
                   | cac:CreditNoteLine/cac:Item/cac:StandardItemIdentification/cbc:ID[normalize-space()]">
      <assert id="BR-64" flag="fatal" test="exists(@schemeID[normalize-space()])">
        The standard identifier of an item (BT-157) must have a scheme identifier (BT-157-1).</assert>
    </rule>

    <rule context="cac:InvoiceLine/cac:Item/cac:CommodityClassification/cbc:ItemClassificationCode[normalize-space()]
                   | cac:CreditNoteLine/cac:Item/cac:CommodityClassification/cbc:ItemClassificationCode
                     [normalize-space()]">
      <assert id="BR-65" flag="fatal" test="exists(@listID[normalize-space()])">
        The classification identifier of an item (BT-158) must have a scheme identifier (BT-158-1).</assert>
    </rule>
  </pattern>

  <!-- What several terms say of each other -->

  <pattern id="conditions">
    <title>Conditions: BR-CO-03 to BR-CO-26</title>

    <rule context="/*">
      <assert id="BR-CO-03" flag="fatal" test="empty($BT-7) or empty($BT-8)">
        An invoice must not have both a VAT point date (BT-7) and a code for it (BT-8).</assert>
      <assert id="BR-CO-10" flag="fatal" test="every $amount in $BT-106 satisfies $amount = $sum-BT-131">
        The sum of the line net amounts (BT-106), here <value-of select="$BT-106"/>, must be the sum of the net amounts
        of all lines (BT-131), which is <value-of select="$sum-BT-131"/>.</assert>
      <assert id="BR-CO-11" flag="fatal" test="sum($BT-107) = $sum-BT-92">
        The sum of the allowances on document level (BT-107), here <value-of select="sum($BT-107)"/>, must be the sum of
        all their amounts (BT-92), which is <value-of select="$sum-BT-92"/>.</assert>
      <assert id="BR-CO-12" flag="fatal" test="sum($BT-108) = $sum-BT-99">
        The sum of the charges on document level (BT-108), here <value-of select="sum($BT-108)"/>, must be the sum of
        all their amounts (BT-99), which is <value-of select="$sum-BT-99"/>.</assert>
      <assert id="BR-CO-13" flag="fatal"
          test="every $amount in $BT-109 satisfies $amount = $sum-BT-131 - sum($BT-107) + sum($BT-108)">
        The total amount without VAT (BT-109), here <value-of select="$BT-109"/>, must be the sum of all line net
        amounts (BT-131) less the allowances (BT-107) plus the charges on document level (BT-108), which is
        <value-of select="$sum-BT-131 - sum($BT-107) + sum($BT-108)"/>.</assert>
      <assert id="BR-CO-14" flag="fatal" test="sum($BT-110) = $sum-BT-117">
        The total VAT amount (BT-110), here <value-of select="sum($BT-110)"/>, must be the sum of the tax amounts of all
        VAT breakdowns (BT-117), which is <value-of select="$sum-BT-117"/>.</assert>
      <assert id="BR-CO-15" flag="fatal"
          test="every $net in $BT-109, $amount in $BT-112 satisfies $amount = $net + sum($BT-110)">
        The total amount with VAT (BT-112), here <value-of select="$BT-112"/>, must be the total amount without VAT
        (BT-109) plus the total VAT amount (BT-110), which is
        <value-of select="for $net in $BT-109 return $net + sum($BT-110)"/>.</assert>
      <assert id="BR-CO-16" flag="fatal"
          test="every $gross in $BT-112, $amount in $BT-115 satisfies $amount = $gross - sum($BT-113) + sum($BT-114)">
        The amount due for payment (BT-115), here <value-of select="$BT-115"/>, must be the total amount with VAT
        (BT-112) less the paid amount (BT-113) plus the rounding amount (BT-114), which is
        <value-of select="for $gross in $BT-112 return $gross - sum($BT-113) + sum($BT-114)"/>.</assert>
      <assert id="BR-CO-18" flag="fatal" test="exists($BG-23)">
        An invoice must have at least one VAT breakdown (BG-23).</assert>
      <assert id="BR-CO-25" flag="fatal" test="not($BT-115 &gt; 0) or exists(($BT-9, $BT-20))">
        An invoice of which something is due (BT-115 above 0) must have a payment due date (BT-9) or payment terms
        (BT-20).</assert>
      <assert id="BR-CO-26" flag="fatal" test="exists(($BT-29, $BT-30, $BT-31))">
        An invoice must have an identifier (BT-29), a legal registration identifier (BT-30) or a VAT identifier (BT-31)
        of the seller.</assert>
    </rule>

    <rule context="/ubl:Invoice/cac:InvoiceLine | /cn:CreditNote/cac:CreditNoteLine">
      <let name="BT-151" value="cac:Item/cac:ClassifiedTaxCategory/cbc:ID[normalize-space()]"/>
      <assert id="BR-CO-04" flag="fatal" test="exists($BT-151)">
        An invoice line (BG-25) must have a VAT category code (BT-151).</assert>
    </rule>

    <rule context="/*/cac:AccountingSupplierParty/cac:Party/cac:PartyTaxScheme
                   [cac:TaxScheme/cbc:ID/normalize-space() = 'VAT']/cbc:CompanyID[normalize-space()]
                   | /*/cac:AccountingCustomerParty/cac:Party/cac:PartyTaxScheme
                     [cac:TaxScheme/cbc:ID/normalize-space() = 'VAT']/cbc:CompanyID[normalize-space()]
                   | /*/cac:TaxRepresentativeParty/cac:PartyTaxScheme/cbc:CompanyID[normalize-space()]">
      <assert id="BR-CO-09" flag="fatal" test="substring(normalize-space(), 1, 2) = $prefixes">
        The VAT identifier of the seller (BT-31), of the tax representative (BT-63) or of the buyer (BT-48) must begin
        with the code of a country (ISO 3166-1, or EL for Greece): <value-of select="normalize-space()"/>
        doesn't.</assert>
    </rule>

    <rule context="/*/cac:TaxTotal/cac:TaxSubtotal">
      <let name="BT-116" value="cbc:TaxableAmount[. castable as xs:decimal]/xs:decimal(.)"/>
      <let name="BT-117" value="cbc:TaxAmount[. castable as xs:decimal]/xs:decimal(.)"/>
      <let name="BT-119" value="cac:TaxCategory/cbc:Percent[. castable as xs:decimal]/xs:decimal(.)"/>
      <!-- In cents. The first lets a difference below 1 pass, as the published rules do. The second is the standard's own
           demand inside that, where half a cent may go either way, since the standard doesn't say which. -->
      <assert id="BR-CO-17" flag="fatal"
          test="every $base in $BT-116, $rate in $BT-119, $tax in $BT-117
                satisfies abs($tax * 100 - round($base * $rate)) &lt; 100">
        The tax amount of a VAT breakdown (BT-117), here <value-of select="$BT-117"/>, must be its taxable amount
        (BT-116) times its rate (BT-119) / 100, rounded to two decimals: unrounded that is
        <value-of select="for $base in $BT-116, $rate in $BT-119 return $base * $rate div 100"/>.</assert>
      <assert id="BR-CO-17-exact" flag="warning"
          test="every $base in $BT-116, $rate in $BT-119, $tax in $BT-117
                satisfies abs($tax * 100 - round($base * $rate)) &gt;= 100
                or $tax * 100 = (round($base * $rate), -round(-($base * $rate)))">
        The tax amount of a VAT breakdown (BT-117), here <value-of select="$BT-117"/>, differs by less than 1 from its
        taxable amount (BT-116) times its rate (BT-119) / 100, rounded to two decimals, which the standard asks for:
        unrounded that is <value-of select="for $base in $BT-116, $rate in $BT-119 return $base * $rate div 100"/>.</assert>
    </rule>

    <!-- A period that has but the code of the VAT point date (BT-8) is no invoicing period. -->
    <rule context="/*/cac:InvoicePeriod[not(cbc:DescriptionCode)]">
      <let name="dates" value="(cbc:StartDate | cbc:EndDate)[normalize-space()]"/>
      <assert id="BR-CO-19" flag="fatal" test="exists($dates)">
        An invoicing period (BG-14) must have a start date (BT-73) or an end date (BT-74).</assert>
    </rule>

    <rule context="cac:InvoiceLine/cac:InvoicePeriod | cac:CreditNoteLine/cac:InvoicePeriod">
      <let name="dates" value="(cbc:StartDate | cbc:EndDate)[normalize-space()]"/>
      <assert id="BR-CO-20" flag="fatal" test="exists($dates)">
        An invoice line's period (BG-26) must have a start date (BT-134) or an end date (BT-135).</assert>
    </rule>

    <rule context="/*/cac:AllowanceCharge[not(cbc:ChargeIndicator/normalize-space() = ('true', '1'))]">
      <let name="BT-97" value="cbc:AllowanceChargeReason[normalize-space()]"/>
      <let name="BT-98" value="cbc:AllowanceChargeReasonCode[normalize-space()]"/>
      <assert id="BR-CO-21" flag="fatal" test="exists(($BT-97, $BT-98))">
        A document level allowance (BG-20) must have a reason (BT-97), a reason code (BT-98), or both.</assert>
    </rule>

    <rule context="/*/cac:AllowanceCharge[cbc:ChargeIndicator/normalize-space() = ('true', '1')]">
      <let name="BT-104" value="cbc:AllowanceChargeReason[normalize-space()]"/>
      <let name="BT-105" value="cbc:AllowanceChargeReasonCode[normalize-space()]"/>
      <assert id="BR-CO-22" flag="fatal" test="exists(($BT-104, $BT-105))">
        A document level charge (BG-21) must have a reason (BT-104), a reason code (BT-105), or both.</assert>
    </rule>

    <rule context="cac:InvoiceLine/cac:AllowanceCharge[not(cbc:ChargeIndicator/normalize-space() = ('true', '1'))]
                   | cac:CreditNoteLine/cac:AllowanceCharge
                     [not(cbc:ChargeIndicator/normalize-space() = ('true', '1'))]">
      <let name="BT-139" value="cbc:AllowanceChargeReason[normalize-space()]"/>
      <let name="BT-140" value="cbc:AllowanceChargeReasonCode[normalize-space()]"/>
      <assert id="BR-CO-23" flag="fatal" test="exists(($BT-139, $BT-140))">
        An invoice line allowance (BG-27) must have a reason (BT-139), a reason code (BT-140), or both.</assert>
    </rule>

    <rule context="cac:InvoiceLine/cac:AllowanceCharge[cbc:ChargeIndicator/normalize-space() = ('true', '1')]
                   | cac:CreditNoteLine/cac:AllowanceCharge[cbc:ChargeIndicator/normalize-space() = ('true', '1')]">
      <let name="BT-144" value="cbc:AllowanceChargeReason[normalize-space()]"/>
      <let name="BT-145" value="cbc:AllowanceChargeReasonCode[normalize-space()]"/>
      <assert id="BR-CO-24" flag="fatal" test="exists(($BT-144, $BT-145))">
        An invoice line charge (BG-28) must have a reason (BT-144), a reason code (BT-145), or both.</assert>
    </rule>
  </pattern>

  <!-- Amounts of at most two decimals, by how they are written -->

  <pattern id="two-decimals" abstract="true">
    <rule context="$amount">
      <assert id="$id" flag="fatal"
          test="not(normalize-space()) or (. castable as xs:decimal
                and string-length(substring-after(normalize-space(), '.')) &lt;= 2)">
        The <value-of select="'$term'"/> must be a number of at most two decimals:
        <value-of select="normalize-space()"/> isn't.</assert>
    </rule>
  </pattern>

  <pattern id="DEC-01" is-a="two-decimals">
    <param name="id" value="BR-DEC-01"/>
    <param name="term" value="amount of a document level allowance (BT-92)"/>
    <param name="amount" value="/*/cac:AllowanceCharge
            [not(cbc:ChargeIndicator/normalize-space() = ('true', '1'))]/cbc:Amount"/>
  </pattern>

  <pattern id="DEC-02" is-a="two-decimals">
    <param name="id" value="BR-DEC-02"/>
    <param name="term" value="base amount of a document level allowance (BT-93)"/>
    <param name="amount" value="/*/cac:AllowanceCharge
            [not(cbc:ChargeIndicator/normalize-space() = ('true', '1'))]/cbc:BaseAmount"/>
  </pattern>

  <pattern id="DEC-05" is-a="two-decimals">
    <param name="id" value="BR-DEC-05"/>
    <param name="term" value="amount of a document level charge (BT-99)"/>
    <param name="amount" value="/*/cac:AllowanceCharge
            [cbc:ChargeIndicator/normalize-space() = ('true', '1')]/cbc:Amount"/>
  </pattern>

  <pattern id="DEC-06" is-a="two-decimals">
    <param name="id" value="BR-DEC-06"/>
    <param name="term" value="base amount of a document level charge (BT-100)"/>
    <param name="amount" value="/*/cac:AllowanceCharge
            [cbc:ChargeIndicator/normalize-space() = ('true', '1')]/cbc:BaseAmount"/>
  </pattern>

  <pattern id="DEC-09" is-a="two-decimals">
    <param name="id" value="BR-DEC-09"/>
    <param name="term" value="sum of the line net amounts (BT-106)"/>
    <param name="amount" value="/*/cac:LegalMonetaryTotal/cbc:LineExtensionAmount"/>
  </pattern>

  <pattern id="DEC-10" is-a="two-decimals">
    <param name="id" value="BR-DEC-10"/>
    <param name="term" value="sum of the allowances on document level (BT-107)"/>
    <param name="amount" value="/*/cac:LegalMonetaryTotal/cbc:AllowanceTotalAmount"/>
  </pattern>

  <pattern id="DEC-11" is-a="two-decimals">
    <param name="id" value="BR-DEC-11"/>
    <param name="term" value="sum of the charges on document level (BT-108)"/>
    <param name="amount" value="/*/cac:LegalMonetaryTotal/cbc:ChargeTotalAmount"/>
  </pattern>

  <pattern id="DEC-12" is-a="two-decimals">
    <param name="id" value="BR-DEC-12"/>
    <param name="term" value="total amount without VAT (BT-109)"/>
    <param name="amount" value="/*/cac:LegalMonetaryTotal/cbc:TaxExclusiveAmount"/>
  </pattern>

  <pattern id="DEC-13" is-a="two-decimals">
    <param name="id" value="BR-DEC-13"/>
    <param name="term" value="total VAT amount (BT-110)"/>
    <param name="amount" value="/*/cac:TaxTotal/cbc:TaxAmount[not(normalize-space(@currencyID) = $accounting)]"/>
  </pattern>

  <pattern id="DEC-14" is-a="two-decimals">
    <param name="id" value="BR-DEC-14"/>
    <param name="term" value="total amount with VAT (BT-112)"/>
    <param name="amount" value="/*/cac:LegalMonetaryTotal/cbc:TaxInclusiveAmount"/>
  </pattern>

  <pattern id="DEC-15" is-a="two-decimals">
    <param name="id" value="BR-DEC-15"/>
    <param name="term" value="total VAT amount in the accounting currency (BT-111)"/>
    <param name="amount" value="/*/cac:TaxTotal/cbc:TaxAmount[normalize-space(@currencyID) = $accounting]"/>
  </pattern>

  <pattern id="DEC-16" is-a="two-decimals">
    <param name="id" value="BR-DEC-16"/>
    <param name="term" value="paid amount (BT-113)"/>
    <param name="amount" value="/*/cac:LegalMonetaryTotal/cbc:PrepaidAmount"/>
  </pattern>

  <pattern id="DEC-17" is-a="two-decimals">
    <param name="id" value="BR-DEC-17"/>
    <param name="term" value="rounding amount (BT-114)"/>
    <param name="amount" value="/*/cac:LegalMonetaryTotal/cbc:PayableRoundingAmount"/>
  </pattern>

  <pattern id="DEC-18" is-a="two-decimals">
    <param name="id" value="BR-DEC-18"/>
    <param name="term" value="amount due for payment (BT-115)"/>
    <param name="amount" value="/*/cac:LegalMonetaryTotal/cbc:PayableAmount"/>
  </pattern>

  <pattern id="DEC-19" is-a="two-decimals">
    <param name="id" value="BR-DEC-19"/>
    <param name="term" value="taxable amount of a VAT breakdown (BT-116)"/>
    <param name="amount" value="/*/cac:TaxTotal/cac:TaxSubtotal/cbc:TaxableAmount"/>
  </pattern>

  <pattern id="DEC-20" is-a="two-decimals">
    <param name="id" value="BR-DEC-20"/>
    <param name="term" value="tax amount of a VAT breakdown (BT-117)"/>
    <param name="amount" value="/*/cac:TaxTotal/cac:TaxSubtotal/cbc:TaxAmount"/>
  </pattern>

  <pattern id="DEC-23" is-a="two-decimals">
    <param name="id" value="BR-DEC-23"/>
    <param name="term" value="net amount of an invoice line (BT-131)"/>
    <param name="amount" value="cac:InvoiceLine/cbc:LineExtensionAmount | cac:CreditNoteLine/cbc:LineExtensionAmount"/>
  </pattern>

  <pattern id="DEC-24" is-a="two-decimals">
    <param name="id" value="BR-DEC-24"/>
    <param name="term" value="amount of an invoice line allowance (BT-136)"/>
    <param name="amount" value="cac:InvoiceLine/cac:AllowanceCharge
            [not(cbc:ChargeIndicator/normalize-space() = ('true', '1'))]/cbc:Amount
            | cac:CreditNoteLine/cac:AllowanceCharge
              [not(cbc:ChargeIndicator/normalize-space() = ('true', '1'))]/cbc:Amount"/>
  </pattern>

  <pattern id="DEC-25" is-a="two-decimals">
    <param name="id" value="BR-DEC-25"/>
    <param name="term" value="base amount of an invoice line allowance (BT-137)"/>
    <param name="amount" value="cac:InvoiceLine/cac:AllowanceCharge
            [not(cbc:ChargeIndicator/normalize-space() = ('true', '1'))]/cbc:BaseAmount
            | cac:CreditNoteLine/cac:AllowanceCharge
              [not(cbc:ChargeIndicator/normalize-space() = ('true', '1'))]/cbc:BaseAmount"/>
  </pattern>

  <pattern id="DEC-27" is-a="two-decimals">
    <param name="id" value="BR-DEC-27"/>
    <param name="term" value="amount of an invoice line charge (BT-141)"/>
    <param name="amount" value="cac:InvoiceLine/cac:AllowanceCharge
            [cbc:ChargeIndicator/normalize-space() = ('true', '1')]/cbc:Amount
            | cac:CreditNoteLine/cac:AllowanceCharge
              [cbc:ChargeIndicator/normalize-space() = ('true', '1')]/cbc:Amount"/>
  </pattern>

  <pattern id="DEC-28" is-a="two-decimals">
    <param name="id" value="BR-DEC-28"/>
    <param name="term" value="base amount of an invoice line charge (BT-142)"/>
    <param name="amount" value="cac:InvoiceLine/cac:AllowanceCharge
            [cbc:ChargeIndicator/normalize-space() = ('true', '1')]/cbc:BaseAmount
            | cac:CreditNoteLine/cac:AllowanceCharge
              [cbc:ChargeIndicator/normalize-space() = ('true', '1')]/cbc:BaseAmount"/>
  </pattern>

  <!-- The VAT categories with rates: standard (S), the tax of the Canary Islands (L), and that of Ceuta and Melilla
       (M) -->

  <pattern id="taxed" abstract="true">
    <let name="lines"
        value="if ($has-$code)
            then $BG-25[cac:Item/cac:ClassifiedTaxCategory/cbc:ID/normalize-space() = '$code'] else ()"/>
    <let name="allowances" value="$BG-20[cac:TaxCategory/cbc:ID/normalize-space() = '$code']"/>
    <let name="charges" value="$BG-21[cac:TaxCategory/cbc:ID/normalize-space() = '$code']"/>
    <let name="breakdowns" value="$BG-23[cac:TaxCategory/cbc:ID/normalize-space() = '$code']"/>

    <rule context="/*">
      <assert id="$BR-01" flag="fatal" test="empty(($lines, $allowances, $charges)) or exists($breakdowns)">
        An invoice with a line (BG-25), an allowance (BG-20) or a charge (BG-21) of the VAT category
        <value-of select="'$code, $name'"/> (BT-151, BT-95, BT-102), must have at least one VAT breakdown (BG-23) of
        that category (BT-118).</assert>
      <assert id="$BR-02" flag="fatal" test="empty($lines) or exists(($BT-31, $BT-32, $BT-63))">
        An invoice with a line (BG-25) of the VAT category <value-of select="'$code, $name'"/> (BT-151), must have the
        VAT identifier (BT-31) or the tax registration identifier (BT-32) of the seller, or the VAT identifier of the
        tax representative (BT-63).</assert>
      <assert id="$BR-03" flag="fatal" test="empty($allowances) or exists(($BT-31, $BT-32, $BT-63))">
        An invoice with a document level allowance (BG-20) of the VAT category <value-of select="'$code, $name'"/>
        (BT-95), must have the VAT identifier (BT-31) or the tax registration identifier (BT-32) of the seller, or the
        VAT identifier of the tax representative (BT-63).</assert>
      <assert id="$BR-04" flag="fatal" test="empty($charges) or exists(($BT-31, $BT-32, $BT-63))">
        An invoice with a document level charge (BG-21) of the VAT category <value-of select="'$code, $name'"/>
        (BT-102), must have the VAT identifier (BT-31) or the tax registration identifier (BT-32) of the seller, or the
        VAT identifier of the tax representative (BT-63).</assert>
    </rule>

    <rule context="/ubl:Invoice/cac:InvoiceLine[$has-$code]
                   [cac:Item/cac:ClassifiedTaxCategory/cbc:ID/normalize-space() = '$code']
                   | /cn:CreditNote/cac:CreditNoteLine[$has-$code]
                     [cac:Item/cac:ClassifiedTaxCategory/cbc:ID/normalize-space() = '$code']">
      <let name="BT-152"
          value="cac:Item/cac:ClassifiedTaxCategory/cbc:Percent[. castable as xs:decimal]/xs:decimal(.)"/>
      <assert id="$BR-05" flag="fatal" test="$BT-152 $above">
        The VAT rate (BT-152) of an invoice line (BG-25) of the VAT category <value-of select="'$code, $name'"/>
        (BT-151), must be <value-of select="'$rate'"/>.</assert>
    </rule>

    <rule context="/*/cac:AllowanceCharge[not(cbc:ChargeIndicator/normalize-space() = ('true', '1'))]
                   [cac:TaxCategory/cbc:ID/normalize-space() = '$code']">
      <let name="BT-96" value="cac:TaxCategory/cbc:Percent[. castable as xs:decimal]/xs:decimal(.)"/>
      <assert id="$BR-06" flag="fatal" test="$BT-96 $above">
        The VAT rate (BT-96) of a document level allowance (BG-20) of the VAT category
        <value-of select="'$code, $name'"/> (BT-95), must be <value-of select="'$rate'"/>.</assert>
    </rule>

    <rule context="/*/cac:AllowanceCharge[cbc:ChargeIndicator/normalize-space() = ('true', '1')]
                   [cac:TaxCategory/cbc:ID/normalize-space() = '$code']">
      <let name="BT-103" value="cac:TaxCategory/cbc:Percent[. castable as xs:decimal]/xs:decimal(.)"/>
      <assert id="$BR-07" flag="fatal" test="$BT-103 $above">
        The VAT rate (BT-103) of a document level charge (BG-21) of the VAT category <value-of select="'$code, $name'"/>
        (BT-102), must be <value-of select="'$rate'"/>.</assert>
    </rule>

    <rule context="/*/cac:TaxTotal/cac:TaxSubtotal[cac:TaxCategory/cbc:ID/normalize-space() = '$code']">
      <let name="BT-116" value="cbc:TaxableAmount[. castable as xs:decimal]/xs:decimal(.)"/>
      <let name="BT-117" value="cbc:TaxAmount[. castable as xs:decimal]/xs:decimal(.)"/>
      <let name="BT-119" value="cac:TaxCategory/cbc:Percent[. castable as xs:decimal]/xs:decimal(.)"/>
      <let name="reason"
          value="(cac:TaxCategory/cbc:TaxExemptionReason
              | cac:TaxCategory/cbc:TaxExemptionReasonCode)[normalize-space()]"/>
      <let name="taxed-lines"
          value="$lines[cac:Item/cac:ClassifiedTaxCategory/cbc:Percent
              [. castable as xs:decimal]/xs:decimal(.) = $BT-119]"/>
      <let name="taxed-allowances"
          value="$allowances[cac:TaxCategory/cbc:Percent[. castable as xs:decimal]/xs:decimal(.) = $BT-119]"/>
      <let name="taxed-charges"
          value="$charges[cac:TaxCategory/cbc:Percent[. castable as xs:decimal]/xs:decimal(.) = $BT-119]"/>
      <let name="base"
          value="sum($taxed-lines/cbc:LineExtensionAmount[. castable as xs:decimal]/xs:decimal(.))
              + sum($taxed-charges/cbc:Amount[. castable as xs:decimal]/xs:decimal(.))
              - sum($taxed-allowances/cbc:Amount[. castable as xs:decimal]/xs:decimal(.))"/>
      <!-- Of both the first lets a difference below 1 pass, as the published rules do; the second is the standard's own
           demand inside that. The tax is compared in cents, as in BR-CO-17. -->
      <assert id="$BR-08" flag="fatal"
          test="empty($BT-119) or (every $amount in $BT-116 satisfies abs($amount - $base) &lt; 1)">
        The taxable amount (BT-116) of a VAT breakdown (BG-23) of the VAT category <value-of select="'$code, $name'"/>
        (BT-118), here <value-of select="$BT-116"/>, must be the sum of the net amounts of the lines (BT-131) plus the
        charges (BT-99) less the allowances (BT-92) on document level of that category and rate (BT-119), which is
        <value-of select="$base"/>.</assert>
      <assert id="$BR-08-exact" flag="warning"
          test="empty($BT-119)
                or (every $amount in $BT-116 satisfies $amount = $base or abs($amount - $base) &gt;= 1)">
        The taxable amount (BT-116) of a VAT breakdown (BG-23) of the VAT category <value-of select="'$code, $name'"/>
        (BT-118), here <value-of select="$BT-116"/>, differs by less than 1 from the sum of the net amounts of the lines
        (BT-131) plus the charges (BT-99) less the allowances (BT-92) on document level of that category and rate
        (BT-119), which the standard asks for: <value-of select="$base"/>.</assert>
      <assert id="$BR-09" flag="fatal"
          test="every $amount in $BT-116, $percent in $BT-119, $tax in $BT-117
                satisfies abs($tax * 100 - round($amount * $percent)) &lt; 100">
        The tax amount (BT-117) of a VAT breakdown (BG-23) of the VAT category <value-of select="'$code, $name'"/>
        (BT-118), here <value-of select="$BT-117"/>, must be its taxable amount (BT-116) times its rate (BT-119) / 100,
        rounded to two decimals.</assert>
      <assert id="$BR-09-exact" flag="warning"
          test="every $amount in $BT-116, $percent in $BT-119, $tax in $BT-117
                satisfies abs($tax * 100 - round($amount * $percent)) &gt;= 100
                or $tax * 100 = (round($amount * $percent), -round(-($amount * $percent)))">
        The tax amount (BT-117) of a VAT breakdown (BG-23) of the VAT category <value-of select="'$code, $name'"/>
        (BT-118), here <value-of select="$BT-117"/>, differs by less than 1 from its taxable amount (BT-116) times its
        rate (BT-119) / 100, rounded to two decimals, which the standard asks for.</assert>
      <assert id="$BR-10" flag="fatal" test="empty($reason)">
        A VAT breakdown (BG-23) of the VAT category <value-of select="'$code, $name'"/> (BT-118), must not have a VAT
        exemption reason code (BT-121) or text (BT-120).</assert>
    </rule>
  </pattern>

  <pattern id="S" is-a="taxed">
    <title>VAT category S, standard rated: BR-S</title>
    <param name="code" value="S"/>
    <param name="name" value="standard rated"/>
    <param name="above" value="&gt; 0"/>
    <param name="rate" value="above 0"/>
    <param name="BR-01" value="BR-S-01"/>
    <param name="BR-02" value="BR-S-02"/>
    <param name="BR-03" value="BR-S-03"/>
    <param name="BR-04" value="BR-S-04"/>
    <param name="BR-05" value="BR-S-05"/>
    <param name="BR-06" value="BR-S-06"/>
    <param name="BR-07" value="BR-S-07"/>
    <param name="BR-08" value="BR-S-08"/>
    <param name="BR-08-exact" value="BR-S-08-exact"/>
    <param name="BR-09" value="BR-S-09"/>
    <param name="BR-09-exact" value="BR-S-09-exact"/>
    <param name="BR-10" value="BR-S-10"/>
  </pattern>

  <pattern id="L" is-a="taxed">
    <title>VAT category L, Canary Islands general indirect tax (IGIC): BR-AF</title>
    <param name="code" value="L"/>
    <param name="name" value="Canary Islands general indirect tax (IGIC)"/>
    <param name="above" value="&gt;= 0"/>
    <param name="rate" value="0 or above"/>
    <param name="BR-01" value="BR-AF-01"/>
    <param name="BR-02" value="BR-AF-02"/>
    <param name="BR-03" value="BR-AF-03"/>
    <param name="BR-04" value="BR-AF-04"/>
    <param name="BR-05" value="BR-AF-05"/>
    <param name="BR-06" value="BR-AF-06"/>
    <param name="BR-07" value="BR-AF-07"/>
    <param name="BR-08" value="BR-AF-08"/>
    <param name="BR-08-exact" value="BR-AF-08-exact"/>
    <param name="BR-09" value="BR-AF-09"/>
    <param name="BR-09-exact" value="BR-AF-09-exact"/>
    <param name="BR-10" value="BR-AF-10"/>
  </pattern>

  <pattern id="M" is-a="taxed">
    <title>VAT category M, tax of Ceuta and Melilla (IPSI): BR-AG</title>
    <param name="code" value="M"/>
    <param name="name" value="tax of Ceuta and Melilla (IPSI)"/>
    <param name="above" value="&gt;= 0"/>
    <param name="rate" value="0 or above"/>
    <param name="BR-01" value="BR-AG-01"/>
    <param name="BR-02" value="BR-AG-02"/>
    <param name="BR-03" value="BR-AG-03"/>
    <param name="BR-04" value="BR-AG-04"/>
    <param name="BR-05" value="BR-AG-05"/>
    <param name="BR-06" value="BR-AG-06"/>
    <param name="BR-07" value="BR-AG-07"/>
    <param name="BR-08" value="BR-AG-08"/>
    <param name="BR-08-exact" value="BR-AG-08-exact"/>
    <param name="BR-09" value="BR-AG-09"/>
    <param name="BR-09-exact" value="BR-AG-09-exact"/>
    <param name="BR-10" value="BR-AG-10"/>
  </pattern>

  <!-- The VAT categories of rate 0: zero rated goods (Z), exempt (E), reverse charge (AE), intra-community supply (K)
       and export (G) -->

  <pattern id="untaxed" abstract="true">
    <let name="lines"
        value="if ($has-$code)
            then $BG-25[cac:Item/cac:ClassifiedTaxCategory/cbc:ID/normalize-space() = '$code'] else ()"/>
    <let name="allowances" value="$BG-20[cac:TaxCategory/cbc:ID/normalize-space() = '$code']"/>
    <let name="charges" value="$BG-21[cac:TaxCategory/cbc:ID/normalize-space() = '$code']"/>
    <let name="breakdowns" value="$BG-23[cac:TaxCategory/cbc:ID/normalize-space() = '$code']"/>
    <let name="base"
        value="sum($lines/cbc:LineExtensionAmount[. castable as xs:decimal]/xs:decimal(.))
            + sum($charges/cbc:Amount[. castable as xs:decimal]/xs:decimal(.))
            - sum($allowances/cbc:Amount[. castable as xs:decimal]/xs:decimal(.))"/>

    <rule context="/*">
      <assert id="$BR-01" flag="fatal" test="empty(($lines, $allowances, $charges)) or count($breakdowns) = 1">
        An invoice with a line (BG-25), an allowance (BG-20) or a charge (BG-21) of the VAT category
        <value-of select="'$code, $name'"/> (BT-151, BT-95, BT-102), must have exactly one VAT breakdown (BG-23) of that
        category (BT-118).</assert>
      <assert id="$BR-02" flag="fatal" test="empty($lines) or ($identified)">
        An invoice with a line (BG-25) of the VAT category <value-of select="'$code, $name'"/> (BT-151), must have
        <value-of select="'$identifiers'"/>.</assert>
      <assert id="$BR-03" flag="fatal" test="empty($allowances) or ($identified)">
        An invoice with a document level allowance (BG-20) of the VAT category <value-of select="'$code, $name'"/>
        (BT-95), must have <value-of select="'$identifiers'"/>.</assert>
      <assert id="$BR-04" flag="fatal" test="empty($charges) or ($identified)">
        An invoice with a document level charge (BG-21) of the VAT category <value-of select="'$code, $name'"/>
        (BT-102), must have <value-of select="'$identifiers'"/>.</assert>
    </rule>

    <rule context="/ubl:Invoice/cac:InvoiceLine[$has-$code]
                   [cac:Item/cac:ClassifiedTaxCategory/cbc:ID/normalize-space() = '$code']
                   | /cn:CreditNote/cac:CreditNoteLine[$has-$code]
                     [cac:Item/cac:ClassifiedTaxCategory/cbc:ID/normalize-space() = '$code']">
      <let name="BT-152"
          value="cac:Item/cac:ClassifiedTaxCategory/cbc:Percent[. castable as xs:decimal]/xs:decimal(.)"/>
      <assert id="$BR-05" flag="fatal" test="$BT-152 = 0">
        The VAT rate (BT-152) of an invoice line (BG-25) of the VAT category <value-of select="'$code, $name'"/>
        (BT-151), must be 0.</assert>
    </rule>

    <rule context="/*/cac:AllowanceCharge[not(cbc:ChargeIndicator/normalize-space() = ('true', '1'))]
                   [cac:TaxCategory/cbc:ID/normalize-space() = '$code']">
      <let name="BT-96" value="cac:TaxCategory/cbc:Percent[. castable as xs:decimal]/xs:decimal(.)"/>
      <assert id="$BR-06" flag="fatal" test="$BT-96 = 0">
        The VAT rate (BT-96) of a document level allowance (BG-20) of the VAT category
        <value-of select="'$code, $name'"/> (BT-95), must be 0.</assert>
    </rule>

    <rule context="/*/cac:AllowanceCharge[cbc:ChargeIndicator/normalize-space() = ('true', '1')]
                   [cac:TaxCategory/cbc:ID/normalize-space() = '$code']">
      <let name="BT-103" value="cac:TaxCategory/cbc:Percent[. castable as xs:decimal]/xs:decimal(.)"/>
      <assert id="$BR-07" flag="fatal" test="$BT-103 = 0">
        The VAT rate (BT-103) of a document level charge (BG-21) of the VAT category <value-of select="'$code, $name'"/>
        (BT-102), must be 0.</assert>
    </rule>

    <rule context="/*/cac:TaxTotal/cac:TaxSubtotal[cac:TaxCategory/cbc:ID/normalize-space() = '$code']">
      <let name="BT-116" value="cbc:TaxableAmount[. castable as xs:decimal]/xs:decimal(.)"/>
      <let name="BT-117" value="cbc:TaxAmount[. castable as xs:decimal]/xs:decimal(.)"/>
      <let name="reason"
          value="(cac:TaxCategory/cbc:TaxExemptionReason
              | cac:TaxCategory/cbc:TaxExemptionReasonCode)[normalize-space()]"/>
      <!-- The first lets a difference below 1 pass; the second is the standard's own demand inside that. -->
      <assert id="$BR-08" flag="fatal" test="every $amount in $BT-116 satisfies abs($amount - $base) &lt; 1">
        The taxable amount (BT-116) of a VAT breakdown (BG-23) of the VAT category <value-of select="'$code, $name'"/>
        (BT-118), here <value-of select="$BT-116"/>, must be the sum of the net amounts of the lines (BT-131) plus the
        charges (BT-99) less the allowances (BT-92) on document level of that category, which is
        <value-of select="$base"/>.</assert>
      <assert id="$BR-08-exact" flag="warning"
          test="every $amount in $BT-116 satisfies $amount = $base or abs($amount - $base) &gt;= 1">
        The taxable amount (BT-116) of a VAT breakdown (BG-23) of the VAT category <value-of select="'$code, $name'"/>
        (BT-118), here <value-of select="$BT-116"/>, differs by less than 1 from the sum of the net amounts of the lines
        (BT-131) plus the charges (BT-99) less the allowances (BT-92) on document level of that category, which the
        standard asks for: <value-of select="$base"/>.</assert>
      <assert id="$BR-09" flag="fatal" test="every $tax in $BT-117 satisfies $tax = 0">
        The tax amount (BT-117) of a VAT breakdown (BG-23) of the VAT category <value-of select="'$code, $name'"/>
        (BT-118), must be 0.</assert>
      <assert id="$BR-10" flag="fatal" test="$exemption">
        A VAT breakdown (BG-23) of the VAT category <value-of select="'$code, $name'"/> (BT-118), must
        <value-of select="'$says'"/> a VAT exemption reason code (BT-121) or text (BT-120).</assert>
    </rule>
  </pattern>

  <pattern id="Z" is-a="untaxed">
    <title>VAT category Z, zero rated goods: BR-Z</title>
    <param name="code" value="Z"/>
    <param name="name" value="zero rated goods"/>
    <param name="identified" value="exists(($BT-31, $BT-32, $BT-63))"/>
    <param name="identifiers" value="the VAT identifier (BT-31)
            or the tax registration identifier (BT-32) of the seller,
            or the VAT identifier of the tax representative (BT-63)"/>
    <param name="exemption" value="empty($reason)"/>
    <param name="says" value="not have"/>
    <param name="BR-01" value="BR-Z-01"/>
    <param name="BR-02" value="BR-Z-02"/>
    <param name="BR-03" value="BR-Z-03"/>
    <param name="BR-04" value="BR-Z-04"/>
    <param name="BR-05" value="BR-Z-05"/>
    <param name="BR-06" value="BR-Z-06"/>
    <param name="BR-07" value="BR-Z-07"/>
    <param name="BR-08" value="BR-Z-08"/>
    <param name="BR-08-exact" value="BR-Z-08-exact"/>
    <param name="BR-09" value="BR-Z-09"/>
    <param name="BR-10" value="BR-Z-10"/>
  </pattern>

  <pattern id="E" is-a="untaxed">
    <title>VAT category E, exempt from tax: BR-E</title>
    <param name="code" value="E"/>
    <param name="name" value="exempt from tax"/>
    <param name="identified" value="exists(($BT-31, $BT-32, $BT-63))"/>
    <param name="identifiers" value="the VAT identifier (BT-31)
            or the tax registration identifier (BT-32) of the seller,
            or the VAT identifier of the tax representative (BT-63)"/>
    <param name="exemption" value="exists($reason)"/>
    <param name="says" value="have"/>
    <param name="BR-01" value="BR-E-01"/>
    <param name="BR-02" value="BR-E-02"/>
    <param name="BR-03" value="BR-E-03"/>
    <param name="BR-04" value="BR-E-04"/>
    <param name="BR-05" value="BR-E-05"/>
    <param name="BR-06" value="BR-E-06"/>
    <param name="BR-07" value="BR-E-07"/>
    <param name="BR-08" value="BR-E-08"/>
    <param name="BR-08-exact" value="BR-E-08-exact"/>
    <param name="BR-09" value="BR-E-09"/>
    <param name="BR-10" value="BR-E-10"/>
  </pattern>

  <pattern id="AE" is-a="untaxed">
    <title>VAT category AE, reverse charge: BR-AE</title>
    <param name="code" value="AE"/>
    <param name="name" value="reverse charge"/>
    <param name="identified" value="exists(($BT-31, $BT-32, $BT-63)) and exists(($BT-47, $BT-48))"/>
    <param name="identifiers" value="the VAT identifier (BT-31)
            or the tax registration identifier (BT-32) of the seller,
            or the VAT identifier of the tax representative (BT-63), and the VAT identifier (BT-48)
            or the legal registration identifier (BT-47) of the buyer"/>
    <param name="exemption" value="exists($reason)"/>
    <param name="says" value="have"/>
    <param name="BR-01" value="BR-AE-01"/>
    <param name="BR-02" value="BR-AE-02"/>
    <param name="BR-03" value="BR-AE-03"/>
    <param name="BR-04" value="BR-AE-04"/>
    <param name="BR-05" value="BR-AE-05"/>
    <param name="BR-06" value="BR-AE-06"/>
    <param name="BR-07" value="BR-AE-07"/>
    <param name="BR-08" value="BR-AE-08"/>
    <param name="BR-08-exact" value="BR-AE-08-exact"/>
    <param name="BR-09" value="BR-AE-09"/>
    <param name="BR-10" value="BR-AE-10"/>
  </pattern>

  <pattern id="K" is-a="untaxed">
    <title>VAT category K, intra-community supply: BR-IC</title>
    <param name="code" value="K"/>
    <param name="name" value="intra-community supply"/>
    <param name="identified" value="exists(($BT-31, $BT-63)) and exists($BT-48)"/>
    <param name="identifiers" value="the VAT identifier of the seller (BT-31) or of the tax representative (BT-63),
            and the VAT identifier of the buyer (BT-48)"/>
    <param name="exemption" value="exists($reason)"/>
    <param name="says" value="have"/>
    <param name="BR-01" value="BR-IC-01"/>
    <param name="BR-02" value="BR-IC-02"/>
    <param name="BR-03" value="BR-IC-03"/>
    <param name="BR-04" value="BR-IC-04"/>
    <param name="BR-05" value="BR-IC-05"/>
    <param name="BR-06" value="BR-IC-06"/>
    <param name="BR-07" value="BR-IC-07"/>
    <param name="BR-08" value="BR-IC-08"/>
    <param name="BR-08-exact" value="BR-IC-08-exact"/>
    <param name="BR-09" value="BR-IC-09"/>
    <param name="BR-10" value="BR-IC-10"/>
  </pattern>

  <pattern id="G" is-a="untaxed">
    <title>VAT category G, export outside the EU: BR-G</title>
    <param name="code" value="G"/>
    <param name="name" value="export outside the EU"/>
    <param name="identified" value="exists(($BT-31, $BT-63))"/>
    <param name="identifiers" value="the VAT identifier of the seller (BT-31) or of the tax representative (BT-63)"/>
    <param name="exemption" value="exists($reason)"/>
    <param name="says" value="have"/>
    <param name="BR-01" value="BR-G-01"/>
    <param name="BR-02" value="BR-G-02"/>
    <param name="BR-03" value="BR-G-03"/>
    <param name="BR-04" value="BR-G-04"/>
    <param name="BR-05" value="BR-G-05"/>
    <param name="BR-06" value="BR-G-06"/>
    <param name="BR-07" value="BR-G-07"/>
    <param name="BR-08" value="BR-G-08"/>
    <param name="BR-08-exact" value="BR-G-08-exact"/>
    <param name="BR-09" value="BR-G-09"/>
    <param name="BR-10" value="BR-G-10"/>
  </pattern>

  <pattern id="K-delivery">
    <title>VAT category K, intra-community supply: delivery</title>
    <let name="breakdowns" value="$BG-23[cac:TaxCategory/cbc:ID/normalize-space() = 'K']"/>

    <rule context="/*">
      <assert id="BR-IC-11" flag="fatal" test="empty($breakdowns) or exists(($BT-72, $BT-73, $BT-74))">
        An invoice with a VAT breakdown (BG-23) of the VAT category K, intra-community supply (BT-118), must have an
        actual delivery date (BT-72) or an invoicing period (BG-14).</assert>
      <assert id="BR-IC-12" flag="fatal" test="empty($breakdowns) or exists($BT-80)">
        An invoice with a VAT breakdown (BG-23) of the VAT category K, intra-community supply (BT-118), must have a
        deliver to country code (BT-80).</assert>
    </rule>
  </pattern>

  <pattern id="O">
    <title>VAT category O, not subject to VAT: BR-O</title>
    <let name="lines"
        value="if ($has-O)
            then $BG-25[cac:Item/cac:ClassifiedTaxCategory/cbc:ID/normalize-space() = 'O'] else ()"/>
    <let name="allowances" value="$BG-20[cac:TaxCategory/cbc:ID/normalize-space() = 'O']"/>
    <let name="charges" value="$BG-21[cac:TaxCategory/cbc:ID/normalize-space() = 'O']"/>
    <let name="breakdowns" value="$BG-23[cac:TaxCategory/cbc:ID/normalize-space() = 'O']"/>
    <let name="base"
        value="sum($lines/cbc:LineExtensionAmount[. castable as xs:decimal]/xs:decimal(.))
            + sum($charges/cbc:Amount[. castable as xs:decimal]/xs:decimal(.))
            - sum($allowances/cbc:Amount[. castable as xs:decimal]/xs:decimal(.))"/>

    <rule context="/*">
      <assert id="BR-O-01" flag="fatal" test="empty(($lines, $allowances, $charges)) or count($breakdowns) = 1">
        An invoice with a line (BG-25), an allowance (BG-20) or a charge (BG-21) of the VAT category O, not subject to
        VAT (BT-151, BT-95, BT-102), must have exactly one VAT breakdown (BG-23) of that category (BT-118).</assert>
      <assert id="BR-O-02" flag="fatal" test="empty($lines) or empty(($BT-31, $BT-63, $BT-48))">
        An invoice with a line (BG-25) of the VAT category O, not subject to VAT (BT-151), must not have a VAT
        identifier of the seller (BT-31), of the tax representative (BT-63) or of the buyer (BT-48).</assert>
      <assert id="BR-O-03" flag="fatal" test="empty($allowances) or empty(($BT-31, $BT-63, $BT-48))">
        An invoice with a document level allowance (BG-20) of the VAT category O, not subject to VAT (BT-95), must not
        have a VAT identifier of the seller (BT-31), of the tax representative (BT-63) or of the buyer (BT-48).</assert>
      <assert id="BR-O-04" flag="fatal" test="empty($charges) or empty(($BT-31, $BT-63, $BT-48))">
        An invoice with a document level charge (BG-21) of the VAT category O, not subject to VAT (BT-102), must not
        have a VAT identifier of the seller (BT-31), of the tax representative (BT-63) or of the buyer (BT-48).</assert>
      <assert id="BR-O-11" flag="fatal" test="empty($breakdowns) or count($BG-23) = 1">
        An invoice with a VAT breakdown (BG-23) of the VAT category O, not subject to VAT (BT-118), must not have
        another VAT breakdown.</assert>
      <assert id="BR-O-12" flag="fatal" test="empty($breakdowns) or empty($BG-25 except $lines)">
        An invoice with a VAT breakdown (BG-23) of the VAT category O, not subject to VAT (BT-118), must not have a line
        (BG-25) of another category (BT-151).</assert>
      <assert id="BR-O-13" flag="fatal" test="empty($breakdowns) or empty($BG-20 except $allowances)">
        An invoice with a VAT breakdown (BG-23) of the VAT category O, not subject to VAT (BT-118), must not have a
        document level allowance (BG-20) of another category (BT-95).</assert>
      <assert id="BR-O-14" flag="fatal" test="empty($breakdowns) or empty($BG-21 except $charges)">
        An invoice with a VAT breakdown (BG-23) of the VAT category O, not subject to VAT (BT-118), must not have a
        document level charge (BG-21) of another category (BT-102).</assert>
    </rule>

    <rule context="/ubl:Invoice/cac:InvoiceLine[$has-O]
                   [cac:Item/cac:ClassifiedTaxCategory/cbc:ID/normalize-space() = 'O']
                   | /cn:CreditNote/cac:CreditNoteLine[$has-O]
                     [cac:Item/cac:ClassifiedTaxCategory/cbc:ID/normalize-space() = 'O']">
      <let name="BT-152" value="cac:Item/cac:ClassifiedTaxCategory/cbc:Percent[normalize-space()]"/>
      <assert id="BR-O-05" flag="fatal" test="empty($BT-152)">
        An invoice line (BG-25) of the VAT category O, not subject to VAT (BT-151), must not have a VAT rate
        (BT-152).</assert>
    </rule>

    <rule context="/*/cac:AllowanceCharge[not(cbc:ChargeIndicator/normalize-space() = ('true', '1'))]
                   [cac:TaxCategory/cbc:ID/normalize-space() = 'O']">
      <let name="BT-96" value="cac:TaxCategory/cbc:Percent[normalize-space()]"/>
      <assert id="BR-O-06" flag="fatal" test="empty($BT-96)">
        A document level allowance (BG-20) of the VAT category O, not subject to VAT (BT-95), must not have a VAT rate
        (BT-96).</assert>
    </rule>

    <rule context="/*/cac:AllowanceCharge[cbc:ChargeIndicator/normalize-space() = ('true', '1')]
                   [cac:TaxCategory/cbc:ID/normalize-space() = 'O']">
      <let name="BT-103" value="cac:TaxCategory/cbc:Percent[normalize-space()]"/>
      <assert id="BR-O-07" flag="fatal" test="empty($BT-103)">
        A document level charge (BG-21) of the VAT category O, not subject to VAT (BT-102), must not have a VAT rate
        (BT-103).</assert>
    </rule>

    <rule context="/*/cac:TaxTotal/cac:TaxSubtotal[cac:TaxCategory/cbc:ID/normalize-space() = 'O']">
      <let name="BT-116" value="cbc:TaxableAmount[. castable as xs:decimal]/xs:decimal(.)"/>
      <let name="BT-117" value="cbc:TaxAmount[. castable as xs:decimal]/xs:decimal(.)"/>
      <let name="reason"
          value="(cac:TaxCategory/cbc:TaxExemptionReason
              | cac:TaxCategory/cbc:TaxExemptionReasonCode)[normalize-space()]"/>
      <!-- The first lets a difference below 1 pass; the second is the standard's own demand inside that. -->
      <assert id="BR-O-08" flag="fatal" test="every $amount in $BT-116 satisfies abs($amount - $base) &lt; 1">
        The taxable amount (BT-116) of a VAT breakdown (BG-23) of the VAT category O, not subject to VAT (BT-118), here
        <value-of select="$BT-116"/>, must be the sum of the net amounts of the lines (BT-131) plus the charges (BT-99)
        less the allowances (BT-92) on document level of that category, which is <value-of select="$base"/>.</assert>
      <assert id="BR-O-08-exact" flag="warning"
          test="every $amount in $BT-116 satisfies $amount = $base or abs($amount - $base) &gt;= 1">
        The taxable amount (BT-116) of a VAT breakdown (BG-23) of the VAT category O, not subject to VAT (BT-118), here
        <value-of select="$BT-116"/>, differs by less than 1 from the sum of the net amounts of the lines (BT-131) plus
        the charges (BT-99) less the allowances (BT-92) on document level of that category, which the standard asks for:
        <value-of select="$base"/>.</assert>
      <assert id="BR-O-09" flag="fatal" test="every $tax in $BT-117 satisfies $tax = 0">
        The tax amount (BT-117) of a VAT breakdown (BG-23) of the VAT category O, not subject to VAT (BT-118), must be
        0.</assert>
      <assert id="BR-O-10" flag="fatal" test="exists($reason)">
        A VAT breakdown (BG-23) of the VAT category O, not subject to VAT (BT-118), must have a VAT exemption reason
        code (BT-121) or text (BT-120).</assert>
    </rule>
  </pattern>
  <!-- The split payment (B): inside Italy, and beside nothing that is standard rated -->

  <pattern id="B">
    <title>VAT category B, split payment: BR-B</title>
    <let name="split-lines"
        value="if ($has-B)
            then $BG-25[cac:Item/cac:ClassifiedTaxCategory/cbc:ID/normalize-space() = 'B'] else ()"/>
    <let name="split-allowances" value="$BG-20[cac:TaxCategory/cbc:ID/normalize-space() = 'B']"/>
    <let name="split-charges" value="$BG-21[cac:TaxCategory/cbc:ID/normalize-space() = 'B']"/>
    <let name="rated-lines"
        value="if (exists(($split-lines, $split-allowances, $split-charges)))
            then $BG-25[cac:Item/cac:ClassifiedTaxCategory/cbc:ID/normalize-space() = 'S'] else ()"/>
    <let name="rated-allowances" value="$BG-20[cac:TaxCategory/cbc:ID/normalize-space() = 'S']"/>
    <let name="rated-charges" value="$BG-21[cac:TaxCategory/cbc:ID/normalize-space() = 'S']"/>

    <rule context="/*">
      <assert id="BR-B-01" flag="fatal"
          test="empty(($split-lines, $split-allowances, $split-charges)) or ($BT-40 = 'IT' and $BT-55 = 'IT')">
        An invoice with a line (BG-25), an allowance (BG-20) or a charge (BG-21) of the VAT category B, split payment
        (BT-151, BT-95, BT-102), must be of a seller (BT-40) and a buyer (BT-55) in Italy.</assert>
      <assert id="BR-B-02" flag="fatal"
          test="empty(($split-lines, $split-allowances, $split-charges))
                or empty(($rated-lines, $rated-allowances, $rated-charges))">
        An invoice with a line (BG-25), an allowance (BG-20) or a charge (BG-21) of the VAT category B, split payment
        (BT-151, BT-95, BT-102), must not have one of the category S, standard rated.</assert>
    </rule>
  </pattern>

  <!-- Codes that aren't in their lists. The lists stand at the head of this file. -->

  <pattern id="codes">
    <title>Code lists: BR-CL</title>

    <rule context="/*">
      <assert id="BR-CL-04" flag="fatal" test="empty($BT-5[not(. = $currencies)])">
        The currency code of an invoice (BT-5) must be one of ISO 4217: <value-of select="$BT-5"/> isn't.</assert>
      <assert id="BR-CL-05" flag="fatal" test="empty($BT-6[not(. = $currencies)])">
        The VAT accounting currency code (BT-6) must be one of ISO 4217: <value-of select="$BT-6"/> isn't.</assert>
      <assert id="BR-CL-06" flag="fatal" test="empty($BT-8[not(normalize-space() = $points)])">
        The code of the VAT point date (BT-8) must be that of the invoice's issue, of the delivery or of the payment.
        </assert>
    </rule>

    <rule context="/*/cac:AccountingSupplierParty/cac:Party/cac:PostalAddress/cac:Country/cbc:IdentificationCode
                   [normalize-space()]
                   | /*/cac:AccountingCustomerParty/cac:Party/cac:PostalAddress/cac:Country/cbc:IdentificationCode
                     [normalize-space()]
                   | /*/cac:TaxRepresentativeParty/cac:PostalAddress/cac:Country/cbc:IdentificationCode
                     [normalize-space()]
                   | /*/cac:Delivery/cac:DeliveryLocation/cac:Address/cac:Country/cbc:IdentificationCode
                     [normalize-space()]">
      <assert id="BR-CL-14" flag="fatal" test="normalize-space() = $countries">
        A country code (BT-40, BT-55, BT-69, BT-80) must be one of ISO 3166-1: <value-of select="normalize-space()"/>
        isn't.</assert>
    </rule>

    <rule context="cac:InvoiceLine/cac:Item/cac:OriginCountry/cbc:IdentificationCode[normalize-space()]
                   | cac:CreditNoteLine/cac:Item/cac:OriginCountry/cbc:IdentificationCode[normalize-space()]">
      <assert id="BR-CL-15" flag="fatal" test="normalize-space() = $countries">
        The code of an item's country of origin (BT-159) must be one of ISO 3166-1:
        <value-of select="normalize-space()"/> isn't.</assert>
    </rule>

    <rule context="/*/cac:TaxTotal/cac:TaxSubtotal/cac:TaxCategory/cbc:ID[normalize-space()]
                   | /*/cac:AllowanceCharge/cac:TaxCategory/cbc:ID[normalize-space()]">
      <assert id="BR-CL-17" flag="fatal" test="normalize-space() = $categories">
        A VAT category code (BT-95, BT-102, BT-118) must be one of S, Z, E, AE, K, G, O, L, M and B:
        <value-of select="normalize-space()"/> isn't.</assert>
    </rule>

    <rule context="cac:InvoiceLine/cac:Item/cac:ClassifiedTaxCategory/cbc:ID[normalize-space()]
                   | cac:CreditNoteLine/cac:Item/cac:ClassifiedTaxCategory/cbc:ID[normalize-space()]">
      <assert id="BR-CL-18" flag="fatal" test="normalize-space() = $categories">
        The VAT category code of an invoice line (BT-151) must be one of S, Z, E, AE, K, G, O, L, M and B:
        <value-of select="normalize-space()"/> isn't.</assert>
    </rule>

    <rule context="/*/cac:AdditionalDocumentReference/cac:Attachment/cbc:EmbeddedDocumentBinaryObject">
      <assert id="BR-CL-24" flag="fatal" test="normalize-space(@mimeCode) = $media">
        The media type of an attached document (BT-125) must be one that EN 16931-1 names: PDF, PNG, JPEG, CSV or a
        spreadsheet of Office Open XML or OpenDocument.</assert>
    </rule>
  </pattern>
</schema>
"#;
