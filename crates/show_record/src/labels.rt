// The labels of the fields, as docs/FIELDS.md has them: in English the words of the fields' names, in Chinese those of GB/T 38540-2020.
use crate::words::Text;
use terms::Field;

// The label of a field.
// Kept: a match of names, so that a label cannot stand beside another field's number.
pub(crate) fn label_of(f: Field) -> Text {
    match f {
        Field::SealInformation => Text("seal information", "印章信息"),
        Field::Header => Text("header", "印章头"),
        Field::Vendor => Text("vendor", "厂商标识"),
        Field::SealId => Text("seal id", "印章标识"),
        Field::Property => Text("property", "印章属性"),
        Field::SealType => Text("seal type", "印章类型"),
        Field::SealName => Text("seal name", "印章名称"),
        Field::ListKind => Text("list kind", "签章者证书信息类型"),
        Field::CertificateList => Text("certificate list", "签章者证书信息列表"),
        Field::ListedCertificate => Text("listed certificate", "签章者证书"),
        Field::ListedEntry => Text("listed entry", "签章者证书杂凑值"),
        Field::ListedType => Text("listed type", "自定义类型"),
        Field::ListedDigest => Text("listed digest", "证书杂凑值"),
        Field::Created => Text("created", "印章制作时间"),
        Field::Start => Text("start", "印章有效期起始时间"),
        Field::End => Text("end", "印章有效期终止时间"),
        Field::Picture => Text("picture", "印章图像数据"),
        Field::PictureType => Text("picture type", "图像类型"),
        Field::PictureData => Text("picture data", "图像数据"),
        Field::Width => Text("width", "图像显示宽度"),
        Field::Height => Text("height", "图像显示高度"),
        Field::SealCustomData => Text("seal custom data", "自定义数据"),
        Field::SealCustomItem => Text("seal custom item", "自定义属性字段"),
        Field::SealCustomId => Text("seal custom id", "自定义扩展字段标识"),
        Field::SealCustomCritical => Text("seal custom critical", "自定义扩展字段是否关键"),
        Field::SealCustomValue => Text("seal custom value", "自定义扩展字段数据值"),
        Field::MakerCertificate => Text("maker certificate", "制章者证书"),
        Field::SealAlgorithm => Text("seal algorithm", "签名算法标识"),
        Field::SealSignedValue => Text("seal signed value", "签名值"),
        Field::SignedPart => Text("signed part", "签章信息"),
        Field::Seal => Text("seal", "电子印章"),
        Field::SigningTime => Text("signing time", "签章时间"),
        Field::OriginalDigest => Text("original digest", "原文杂凑值"),
        Field::PropertyText => Text("property text", "原文数据的属性"),
        Field::SignedCustomData => Text("signed custom data", "自定义数据"),
        Field::SignedCustomItem => Text("signed custom item", "自定义属性字段"),
        Field::SignedCustomId => Text("signed custom id", "自定义扩展字段标识"),
        Field::SignedCustomCritical => Text("signed custom critical", "自定义扩展字段是否关键"),
        Field::SignedCustomValue => Text("signed custom value", "自定义扩展字段数据值"),
        Field::SignerCertificate => Text("signer certificate", "签章者证书"),
        Field::SignatureAlgorithm => Text("signature algorithm", "签名算法标识"),
        Field::SignatureValue => Text("signature value", "签名值"),
        Field::Stamp => Text("stamp", "对签名值的时间戳"),
    }
}
