//! Names of tags.

ghost use Rattle.std.specs.Prelude.{◌≡◌, IfSome, true};
ghost use Rattle.std.specs.List.{list_all};
ghost use Rattle.reference_listing.specs.Pieces.{is_tag_letter};

/// The name of the tag of a profile (ISO/IEC 19500-2, IOP: standard IOR profiles).
pub(crate) fn profile_name(tag: u32) -> Option<&'static str>
    ensures { IfSome result (λ name. list_all is_tag_letter name.now ≡ true) }
{
    match tag {
        0 => Some("TAG_INTERNET_IOP"),
        1 => Some("TAG_MULTIPLE_COMPONENTS"),
        2 => Some("TAG_SCCP_IOP"),
        3 => Some("TAG_UIPMC"),
        _ => None,
    }
}

/// The name of the tag of a component (ISO/IEC 19500-2, IOP: standard IOR components).
pub(crate) fn component_name(tag: u32) -> Option<&'static str>
    ensures { IfSome result (λ name. list_all is_tag_letter name.now ≡ true) }
{
    match tag {
        0 => Some("TAG_ORB_TYPE"),
        1 => Some("TAG_CODE_SETS"),
        2 => Some("TAG_POLICIES"),
        3 => Some("TAG_ALTERNATE_IIOP_ADDRESS"),
        13 => Some("TAG_ASSOCIATION_OPTIONS"),
        14 => Some("TAG_SEC_NAME"),
        15 => Some("TAG_SPKM_1_SEC_MECH"),
        16 => Some("TAG_SPKM_2_SEC_MECH"),
        17 => Some("TAG_KERBEROSV5_SEC_MECH"),
        18 => Some("TAG_CSI_ECMA_SECRET_SEC_MECH"),
        19 => Some("TAG_CSI_ECMA_HYBRID_SEC_MECH"),
        20 => Some("TAG_SSL_SEC_TRANS"),
        21 => Some("TAG_CSI_ECMA_PUBLIC_SEC_MECH"),
        22 => Some("TAG_GENERIC_SEC_MECH"),
        23 => Some("TAG_FIREWALL_TRANS"),
        24 => Some("TAG_SCCP_CONTACT_INFO"),
        25 => Some("TAG_JAVA_CODEBASE"),
        26 => Some("TAG_TRANSACTION_POLICY"),
        27 => Some("TAG_FT_GROUP"),
        28 => Some("TAG_FT_PRIMARY"),
        29 => Some("TAG_FT_HEARTBEAT_ENABLED"),
        30 => Some("TAG_MESSAGE_ROUTERS"),
        31 => Some("TAG_OTS_POLICY"),
        32 => Some("TAG_INV_POLICY"),
        33 => Some("TAG_CSI_SEC_MECH_LIST"),
        34 => Some("TAG_NULL_TAG"),
        35 => Some("TAG_SECIOP_SEC_TRANS"),
        36 => Some("TAG_TLS_SEC_TRANS"),
        37 => Some("TAG_ACTIVITY_POLICY"),
        _ => None,
    }
}
